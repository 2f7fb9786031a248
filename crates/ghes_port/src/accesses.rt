// What the owner of the guest's memory has to do next for a source, and what came of it.
use apei_tables::Place;

/// What is to be done next. Each read, and each write of at most 8 bytes, is one aligned access.
#[derive(Clone, Copy, Debug, PartialEq, Eq)]
pub enum Access {
    /// Nothing: the source rests.
    Nothing,
    /// To read 1, 2, 4 or 8 bytes. `done` is told the number that they are, the low byte first.
    Read { place: Place, size: u32 },
    /// To write the first bytes of the buffer, at most 64.
    Write { place: Place, size: u32 },
    /// To notify the guest as the source's notification structure says.
    Notify,
}

/// What came of it.
#[derive(Clone, Copy, Debug, PartialEq, Eq)]
pub enum Outcome {
    /// Nothing was to be done.
    Nothing,
    /// The source goes on.
    Done,
    /// The guest has not acknowledged yet: the same is to be read again later.
    Waits,
}
