// Why a client was refused.
use apei_space::SpaceFault;
use cper_frame::FrameError;
use erst_interp::RunStop;

/// Why a client can't use a table.
#[derive(Clone, Copy, Debug, PartialEq, Eq)]
pub enum AttachError {
    /// A program of the table stopped.
    Stopped(RunStop),
    /// The error log address range is non-volatile memory itself, by bit 1 of these attributes.
    NonVolatile { found: u64 },
    /// The range has fewer bytes than an error record's header.
    NoRange { len: u64 },
}

/// Why a command of a client was refused. The first five are command statuses 1 to 5 of the firmware.
#[derive(Clone, Copy, Debug, PartialEq, Eq)]
pub enum ClientError {
    /// There isn't enough space in the firmware's store.
    NoSpace,
    /// The store's hardware isn't available.
    Hardware,
    /// The firmware failed.
    Failed,
    /// The store is empty.
    Empty,
    /// No such record is stored.
    NotFound,
    /// The bytes don't begin with an error record.
    Frame(FrameError),
    /// The record is longer than the error log address range.
    TooLong { len: u64, range: u64 },
    /// The buffer is shorter than the record that was read.
    SmallBuffer { need: u64 },
    /// The record that was read says a length that is shorter than its header or longer than the range.
    BadLength { found: u64 },
    /// A command status that ACPI doesn't define.
    Status { found: u64 },
    /// A program of the table stopped.
    Stopped(RunStop),
    /// So many bytes follow the record.
    Trailing { bytes: u64 },
    /// The space refused the bytes of the error log address range.
    Range(SpaceFault),
    /// The firmware was still busy after so many microseconds, and 10 more would pass the greatest time that it names.
    Late { waited: u64 },
}
