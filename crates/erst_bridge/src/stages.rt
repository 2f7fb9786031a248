// How far a bridge is with a block.

/// How far a bridge is with a block.
#[derive(Clone, Copy, PartialEq, Eq)]
pub enum BridgeStage {
    /// The bridge is off.
    Closed,
    /// It waits for a block to be taken.
    Awaiting,
    /// It holds the record of a block that was taken.
    Holding,
    /// The record is stored, and the block has still to be acknowledged.
    Releasing,
}
