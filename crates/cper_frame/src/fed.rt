/// What a reader took of a piece, and whether a record is whole then.
#[derive(Clone, Copy, Debug, PartialEq, Eq)]
pub struct Fed {
    pub taken: usize,
    pub whole: bool,
}
