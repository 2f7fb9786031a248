// A part of an item.

/// A part of an item, by its places. They count from the item's start, in bytes.
#[derive(Clone, Copy, Debug, PartialEq, Eq)]
pub struct Part {
    /// Where its header stands: an instruction entry or an error source as a whole, the descriptor of a section, the header of a
    /// data entry.
    pub at: u64,
    pub len: u64,
    /// Where the bytes stand that the header describes. Both numbers are 0 where it describes none.
    pub body: u64,
    pub body_len: u64,
    /// The action of an instruction entry, the type of an error source, 0 for others.
    pub kind: u32,
}
