// Why sources are not served, and why a block is refused.
use apei_tables::BadRegister;

/// Why sources are not served: the first reason that applies, of the first source that has one. Sources are counted from 0.
#[derive(Clone, Copy, Debug, PartialEq, Eq)]
pub enum OpenError {
    /// There is none, or more than 64.
    Count { found: u64 },
    /// The flags are not 0, or `enabled` is neither 0 nor 1.
    Reserved { index: u32 },
    /// No record or no section is pre-allocated.
    Preallocation { index: u32 },
    /// The notification structure has another length than 28, or a type above 11 (ACPI 6.4, table 18-13).
    Notification { index: u32 },
    /// The window has fewer than 20 or more than 65,536 bytes.
    Length { index: u32 },
    /// There is no place for a block, or more than 65,536.
    Places { index: u32 },
    /// The register of the block's address is none.
    AddressRegister { index: u32, why: BadRegister },
    /// The block's address has a bit outside its register's field.
    Address { index: u32 },
    /// The acknowledge register is none.
    AckRegister { index: u32, why: BadRegister },
    /// No bit acknowledges, or one lies outside the register's access.
    Mask { index: u32 },
    /// The block stands at 0.
    Zero { index: u32 },
    /// The block's address is no multiple of 4, or a register's no multiple of its access.
    Alignment { index: u32 },
    /// A part ends past 2^64 - 1, or past port 65,535.
    Late { index: u32 },
    /// Two parts have a byte in common: both of this source, or one of it and one of an earlier source.
    Clash { index: u32 },
    /// An earlier source has the same identifier.
    Id { index: u32 },
    /// There was no memory.
    Memory,
}

/// Why a block is refused: the first reason that applies. Nothing has changed then.
#[derive(Clone, Copy, Debug, PartialEq, Eq)]
pub enum SubmitError {
    /// It is longer than the source's window, or not exactly one error status block.
    Bad(ghes_ack::SubmitError),
    /// As many blocks wait as the source has places for.
    Full,
}

/// The blocks of a source don't let it be at a stage: there is none, the piece begins past the oldest one, or there is no acknowledge register.
#[derive(Clone, Copy, Debug, PartialEq, Eq)]
pub struct NotReached;
