// Why bytes are no block.

/// Why bytes are no block, the first reason that applies. Entries count from 0, places from the block's start.
#[derive(Clone, Copy, Debug, PartialEq, Eq)]
pub enum BlockError {
    /// So many bytes are missing: of the 20 bytes of the block's head, or of the block.
    Need { more: u64 },
    /// The block status is 0.
    NotPublished,
    /// The raw data begins before the entries end.
    RawOffset { found: u64 },
    /// An entry's head or data leaves the data length.
    Entry { index: u64, at: u64 },
    /// So many bytes, too few for an entry, are left after the last one.
    Rest { bytes: u64 },
}
