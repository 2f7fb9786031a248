// The header's structs of items that are made.

/// What an error status block says of its section. `has_fru`, `has_fru_text` and `has_timestamp` are 0 where the field is not given.
#[repr(C)]
#[derive(Clone, Copy, Debug)]
pub struct BlockNumbers {
    pub timestamp: u64,
    pub severity: u32,
    pub flags: u8,
    pub has_timestamp: u8,
    pub has_fru: u8,
    pub has_fru_text: u8,
    pub kind: [u8; 16],
    pub fru: [u8; 16],
    pub fru_text: [u8; 20],
    pub reserved: u32,
}

/// What an error record says of itself and of its section.
#[repr(C)]
#[derive(Clone, Copy, Debug)]
pub struct RecordNumbers {
    pub id: u64,
    pub timestamp: u64,
    pub severity: u32,
    pub flags: u32,
    pub section_flags: u32,
    pub has_timestamp: u8,
    pub has_fru: u8,
    pub has_fru_text: u8,
    pub reserved: u8,
    pub creator: [u8; 16],
    pub notification: [u8; 16],
    pub kind: [u8; 16],
    pub fru: [u8; 16],
    pub fru_text: [u8; 20],
    pub unused: u32,
}
