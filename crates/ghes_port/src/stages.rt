// How far a source is.

/// What a source does next.
#[derive(Clone, Copy, Debug, PartialEq, Eq)]
pub enum Stage {
    /// It writes 0 to the block status.
    Hide,
    /// It writes the block's address to its register.
    TellAddress,
    /// It reads the acknowledge register, to set its bits for the first time.
    ReadFirst,
    /// It sets the acknowledge bits of what it read.
    SetAck { read: u64 },
    /// It writes the piece with this number of the oldest block. If there is no block it rests.
    Fill { piece: u32 },
    /// It reads the acknowledge register, to clear its bits.
    ReadAck,
    /// It clears the acknowledge bits of what it read.
    ClearAck { read: u64 },
    /// It writes the block status.
    Show,
    /// It notifies the guest.
    Notify,
    /// It looks whether the guest has acknowledged.
    Await,
}

/// What becomes of the blocks that a guest has not acknowledged when it starts again.
#[derive(Clone, Copy, Debug, PartialEq, Eq)]
pub enum Unacknowledged {
    /// They are told again, the oldest one first.
    TellAgain,
    /// They are forgotten.
    Forget,
}
