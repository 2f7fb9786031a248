// A loss of power.
use crate::Tear;

/// A loss of power in the change that is made when `step` changes were asked for before it.
#[derive(Clone, Copy, Debug, PartialEq, Eq)]
pub struct Cut {
    pub step: u64,
    pub tear: Tear,
}
