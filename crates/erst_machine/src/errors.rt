// Why a machine is not booted, and why a fatal block is not laid.
use ghes_block::BlockError;
use thiserror::Error;

/// Why a flash is refused, the first reason that applies, want of memory aside.
#[derive(Clone, Copy, Debug, PartialEq, Eq, Error)]
pub enum BootError {
    /// The flash has this size and this sector size, in bytes, and not the geometry's.
    #[error("the flash has {found} bytes in sectors of {sector}, and not those of the geometry")]
    Size { found: u64, sector: u64 },
    /// The flash failed.
    #[error("the flash failed")]
    Flash,
    /// There was no memory.
    #[error("out of memory")]
    Memory,
}

/// A flash that is refused, handed back.
#[derive(Drop)]
pub struct BootRefused<F> {
    pub why: BootError,
    pub flash: F,
}

/// Why a fatal block is refused, the first reason that applies.
#[derive(Clone, Copy, Debug, PartialEq, Eq)]
pub enum FatalError {
    /// So many bytes are more than 4,096.
    Long { len: u64 },
    /// It is no error status block.
    Malformed(BlockError),
    /// So many bytes follow the block.
    Trailing { bytes: u64 },
    /// The block has so many bytes, and the boot error region fewer left.
    Region { need: u64 },
}
