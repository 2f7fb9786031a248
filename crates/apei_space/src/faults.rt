// Why an access was refused.
use apei_tables::Width;

/// Why a space refused an access.
#[derive(Clone, Copy, Debug, PartialEq, Eq)]
pub enum SpaceFault {
    /// No window holds the byte at this address, which is the first such byte of the access.
    Unmapped { at: u64 },
    /// A window was touched against its rules.
    BadAccess { at: u64, width: Width },
    /// A byte of a copy isn't plain memory.
    NotMemory { at: u64 },
    /// What stands behind the space failed.
    Device,
}
