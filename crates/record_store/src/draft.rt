// What is to be written.

use record_slots::RecordId;

/// A record that is being written: its identifier, its generation and its length in bytes, the slots of its parts, the first
/// one first, and in which of these the tail mark was set when the write began.
#[derive(Clone, Copy, Debug, PartialEq, Eq)]
pub struct Draft {
    pub id: RecordId,
    pub generation: u32,
    pub len: u32,
    pub parts: u32,
    pub slots: [u16; 4],
    pub marked: [bool; 4],
}

/// The next change of a slot that is filled.
#[derive(Clone, Copy, Debug, PartialEq, Eq)]
pub enum Step {
    EraseFromHead { done: u32 },
    EraseFromTail { done: u32 },
    PutHead,
    Piece { piece: u32 },
    TailMark,
}

/// The next change of a write: one of the filling of the slot of a part, or the opening of the gate of the first slot.
#[derive(Clone, Copy, Debug, PartialEq, Eq)]
pub enum Stage {
    Fill { number: u32, step: Step },
    Gate,
}
