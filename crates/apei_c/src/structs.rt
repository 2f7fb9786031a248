// The header's structs.

/// How a flash is divided.
#[repr(C)]
#[derive(Clone, Copy, Debug)]
pub struct MediumGeometry {
    pub sector: u32,
    pub sectors_per_slot: u32,
    pub slots: u32,
}

/// A change of a medium. `kind` is 0 where it programs bytes and 1 where it erases a sector.
#[repr(C)]
#[derive(Clone, Copy, Debug)]
pub struct MediumChange {
    pub offset: u64,
    pub length: u32,
    pub kind: u32,
}

/// Where the windows of a device begin.
#[repr(C)]
#[derive(Clone, Copy, Debug)]
pub struct WindowAddresses {
    pub registers: u64,
    pub range: u64,
}

/// A fault of an item. `kind` is 0 where there is no item of the number that was asked for.
#[repr(C)]
#[derive(Clone, Copy, Debug)]
pub struct ItemFault {
    pub offset: u64,
    pub kind: u32,
    pub reserved: u32,
}

/// A part of an item.
#[repr(C)]
#[derive(Clone, Copy, Debug)]
pub struct ItemPart {
    pub offset: u64,
    pub length: u64,
    pub body: u64,
    pub body_length: u64,
    pub kind: u32,
    pub reserved: u32,
}
