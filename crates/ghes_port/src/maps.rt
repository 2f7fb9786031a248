// Where the two sides of a source meet.
use apei_tables::{Place, Register, Width};

/// A read acknowledge register (ACPI 6.4, 18.3.2.8), by the access that moves it: an acknowledgement keeps the bits `keep` of what it
/// reads, and sets the bits `set`. Both are masks of the whole access.
#[derive(Clone, Copy, Debug, PartialEq, Eq)]
pub struct AckRegister {
    pub place: Place,
    pub access: Width,
    pub keep: u64,
    pub set: u64,
}

/// The register `address` holds the block's address from its bit offset on, and the block's window has `len` bytes of memory at `block`. A
/// source without an acknowledge register is of type 9, one with it of type 10 (ACPI 6.4, 18.3.2.7 and 18.3.2.8).
#[derive(Clone, Copy, Debug, PartialEq, Eq)]
pub struct SourceMap {
    pub address: Register,
    pub block: u64,
    pub len: u32,
    pub ack: Option<AckRegister>,
}
