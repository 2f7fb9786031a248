// The header's structs of error sources.

/// A register, as a Generic Address Structure describes it (ACPI 6.4, 5.2.3.2).
#[repr(C)]
#[derive(Clone, Copy, Debug)]
pub struct RegisterNumbers {
    pub space: u8,
    pub width: u8,
    pub offset: u8,
    pub access: u8,
    pub reserved: u32,
    pub address: u64,
}

/// An error source. `kind` is 9 where it has no acknowledge register, and 10 where it has one.
#[repr(C)]
#[derive(Clone, Copy, Debug)]
pub struct SourceNumbers {
    pub kind: u16,
    pub id: u16,
    pub related: u16,
    pub flags: u8,
    pub enabled: u8,
    pub records: u32,
    pub sections: u32,
    pub raw: u32,
    pub length: u32,
    pub notification: [u8; 28],
    pub places: u32,
    pub address: RegisterNumbers,
    pub block: u64,
    pub ack: RegisterNumbers,
    pub preserve: u64,
    pub write: u64,
}

/// What is to be done next on the guest's memory, or in I/O space where `space` is 1. `kind` is 0 where bytes are read, 1 where they are
/// written, and 2 where the guest is notified.
#[repr(C)]
#[derive(Clone, Copy, Debug)]
pub struct GuestAccess {
    pub address: u64,
    pub length: u32,
    pub kind: u32,
    pub space: u32,
    pub reserved: u32,
}
