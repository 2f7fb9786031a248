// Where the parts of a source lie.
use crate::plain::PlainMap;
use ghes_ack::HandoverMap;

/// Where the two sides of a source meet: with a read acknowledgement, or without.
#[derive(Clone, Copy)]
pub enum Layout {
    Acknowledged(HandoverMap),
    Plain(PlainMap),
}
