// What a header and a descriptor say, apart from counts, lengths and offsets.
ghost use Rattle.std.specs.Prelude.{◌≡◌, ◌≤◌, length};
ghost use Rattle.cper_frame.specs.Reading.{head_at, section_head_at};

use crate::record::ID_AT;
use apei_bytes::{Guid, array_at, byte_at, get_u16, get_u32, get_u64, guid_at};

/// What a record's header says (UEFI 2.8, N.2.1) apart from its counts and lengths. Severity is 0 recoverable, 1 fatal,
/// 2 corrected, 3 informational.
#[derive(Clone, Copy, Debug, PartialEq, Eq)]
pub struct RecordHead {
    pub revision: u16,
    pub severity: u32,
    pub validation: u32,
    pub timestamp: u64,
    pub platform: Guid,
    pub partition: Guid,
    pub creator: Guid,
    pub notification: Guid,
    pub id: u64,
    pub flags: u32,
    pub persistence: [u8; 8],
    pub reserved: [u8; 12],
}

/// What a section's descriptor says (UEFI 2.8, N.2.2) apart from the place of its body.
#[derive(Clone, Copy, Debug, PartialEq, Eq)]
pub struct SectionHead {
    pub revision: u16,
    pub validation: u8,
    pub reserved: u8,
    pub flags: u32,
    pub kind: Guid,
    pub fru: Guid,
    pub severity: u32,
    pub fru_text: [u8; 20],
}

impl RecordHead {
    /// Reads a header.
    pub(crate) fn read(header: &[u8]) -> RecordHead
        requires { 128 ≤ length header.now }
        ensures { result ≡ head_at header.now }
    {
        RecordHead {
            revision: get_u16(header, 4),
            severity: get_u32(header, 12),
            validation: get_u32(header, 16),
            timestamp: get_u64(header, 24),
            platform: guid_at(header, 32),
            partition: guid_at(header, 48),
            creator: guid_at(header, 64),
            notification: guid_at(header, 80),
            id: get_u64(header, ID_AT),
            flags: get_u32(header, 104),
            persistence: array_at(header, 108),
            reserved: array_at(header, 116),
        }
    }
}

impl SectionHead {
    /// Reads a descriptor.
    pub(crate) fn read(descriptor: &[u8]) -> SectionHead
        requires { length descriptor.now ≡ 72 }
        ensures { result ≡ section_head_at descriptor.now }
    {
        SectionHead {
            revision: get_u16(descriptor, 8),
            validation: byte_at(descriptor, 10),
            reserved: byte_at(descriptor, 11),
            flags: get_u32(descriptor, 12),
            kind: guid_at(descriptor, 16),
            fru: guid_at(descriptor, 32),
            severity: get_u32(descriptor, 48),
            fru_text: array_at(descriptor, 52),
        }
    }
}
