// A handover without a read acknowledgement.
mod firmware;
mod handover;
mod map;
mod reader;
mod turns;

pub use handover::PlainHandover;
pub use map::PlainMap;
