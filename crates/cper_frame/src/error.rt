// Why bytes are no record.

/// Why bytes are no record, the first reason that applies. Sections count from 0.
#[derive(Clone, Copy, Debug, PartialEq, Eq)]
pub enum FrameError {
    /// So many bytes are missing: of the 128 bytes of a header, or of the record's length.
    Need { more: u64 },
    /// It doesn't begin with "CPER".
    Start,
    /// The four bytes that end the signature aren't all 0xFF.
    End,
    /// The record length is too small for the header and its descriptors.
    Length { found: u64 },
    /// A section's body isn't between the descriptors and the record's end.
    Section { index: u64 },
    /// The record length is above what a reader takes.
    Limit { found: u64 },
}
