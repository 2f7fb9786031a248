// What a turn of a bridge did.
use erst_client::ClientError;
use ghes_ack::Event;
use record_slots::RecordId;

/// What a turn of a bridge did.
#[derive(Clone, Copy, Debug, PartialEq, Eq)]
pub enum BridgeEvent {
    /// The reader made a turn.
    Line(Event),
    /// The record of the held block was stored, and the reader may go on to acknowledge the block.
    Stored { id: RecordId },
    /// The record wasn't stored, since the client was refused. The block is held on.
    Kept(ClientError),
    /// There is no identifier left for the held block, which is held on.
    Out,
}
