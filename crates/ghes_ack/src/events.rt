// Whose turn it is, and what a turn does.
ghost use Rattle.std.specs.Prelude.{◌≡◌, ◌++◌, ◌≤◌, length, drop, replicate};

/// The two sides of a handover.
#[derive(Clone, Copy, Debug, PartialEq, Eq)]
pub enum Side {
    Firmware,
    Reader,
}

/// What one turn did.
#[derive(Clone, Copy, Debug, PartialEq, Eq)]
pub enum Event {
    /// The firmware has no block at work and none waits.
    Idle,
    /// The firmware wrote a piece.
    Fill,
    /// The firmware published the block.
    Publish,
    /// The firmware found the block acknowledged.
    Free,
    /// The firmware found the block not acknowledged yet.
    Wait,
    /// The reader found no block.
    Nothing,
    /// The reader found a block.
    Found,
    /// The reader copied a piece that is not the last.
    Copied,
    /// The reader copied the last piece: the block is taken.
    Took,
    /// The reader set the block status to 0.
    Clear,
    /// The reader acknowledged.
    Ack,
}

/// Writes the same event in the first places.
pub fn note(events: &mut [Event], count: usize, event: Event)
    requires { count ≤ length events.old }
    ensures { events.new ≡ replicate count event ++ drop count events.old }
{
    events[..count].fill(event);
}
