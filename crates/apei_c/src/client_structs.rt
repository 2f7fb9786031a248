// The header's structs of a client.

/// What is to be done next, in memory or, where `space` is 1, in I/O space. `kind` is 0 where a register is read, 1 where one is written,
/// 2 for a wait, 3 for a copy, 4 and 5 where the record and its mark are written, 6 and 7 where the record's length and the record are
/// read.
#[repr(C)]
#[derive(Clone, Copy, Debug)]
pub struct ClientDemand {
    pub address: u64,
    /// What is written; where a copy goes; how many microseconds are waited.
    pub value: u64,
    pub length: u64,
    pub kind: u32,
    pub space: u32,
}

/// The error log address range, and the greatest and the nominal time of a command in microseconds; 0 where the firmware names none.
#[repr(C)]
#[derive(Clone, Copy, Debug)]
pub struct ClientRange {
    pub address: u64,
    pub length: u64,
    pub greatest: u32,
    pub nominal: u32,
}
