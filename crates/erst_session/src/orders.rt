// The commands but for a write, which has bytes.

/// What a session is told to do.
#[derive(Clone, Copy, Debug, PartialEq, Eq)]
pub enum Order {
    /// Reads the record of this identifier into a buffer of so many bytes.
    Read { id: u64, room: usize },
    Clear(u64),
    Dummy,
    Count,
    /// Asks for the identifier at the firmware's cursor.
    Next,
    /// Lists all identifiers.
    List,
}
