// The record of a block (UEFI 2.8, appendix N.2), made in a buffer.
ghost use Rattle.std.specs.Prelude.{◌≡◌, ◌+◌, ◌≤◌, length, take};
ghost use Rattle.erst_bridge.specs.BridgedRecord.{bridged, bridged_head, bridged_section, severity_in};

use apei_bytes::{Guid, get_u32};
use cper_frame::{RecordHead, RecordWriter, SectionHead};

/// Where a block says its severity (ACPI 6.4, table 18.11).
const SEVERITY_AT: usize = 16;

/// The greatest severity that is one: informational.
const INFORMATIONAL: u32 = 3;

/// The severity of a block's record.
fn severity_of(block: &[u8]) -> u32
    requires { 20 ≤ length block.now }
    ensures { result ≡ severity_in block.now }
{
    let severity = get_u32(block, SEVERITY_AT);
    if severity < 4 {
        severity
    } else {
        INFORMATIONAL
    }
}

fn head_for(block: &[u8], id: u64) -> RecordHead
    requires { 20 ≤ length block.now }
    ensures { result ≡ bridged_head block.now id }
{
    let none = Guid::from_bytes([0; 16]);
    RecordHead {
        revision: 0x0101,
        severity: severity_of(block),
        validation: 0,
        timestamp: 0,
        platform: none,
        partition: none,
        creator: Guid::from_bytes(*b"APEIBRIDGE\0\0\0\0\0\0"),
        notification: none,
        id,
        flags: 0,
        persistence: [0; 8],
        reserved: [0; 12],
    }
}

fn section_for(block: &[u8]) -> SectionHead
    requires { 20 ≤ length block.now }
    ensures { result ≡ bridged_section block.now }
{
    SectionHead {
        revision: 0x0300,
        validation: 0,
        reserved: 0,
        flags: 0,
        kind: Guid::from_bytes(*b"APEIBLOCK\0\0\0\0\0\0\0"),
        fru: Guid::from_bytes([0; 16]),
        severity: severity_of(block),
        fru_text: [0; 20],
    }
}

/// Makes the record of a block under an identifier at the front of a buffer, and answers how many bytes it has.
pub fn make_record(buffer: &mut [u8], block: &[u8], id: u64) -> usize
    requires room { 4296 ≤ length buffer.old }
    requires head { 20 ≤ length block.now }
    requires short { length block.now ≤ 4096 }
    ensures size { result ≡ 200 + length block.now }
    ensures made { take result buffer.new ≡ bridged block.now id }
{
    let head = head_for(block, id);
    let section = section_for(block);
    let mut writer = RecordWriter::start(buffer, &head, 1);
    writer.section(&section, block).unwrap();
    writer.finish()
}
