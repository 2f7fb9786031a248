// A section of an error, wherever it stands.
ghost use Rattle.std.specs.Prelude.{◌≡◌, ◌+◌, ◌≤◌, length};
ghost use Rattle.base_model.specs.Bytes.{part, number_at};
ghost use Rattle.show_findings.specs.Places.{HasDataEntry};
ghost use Rattle.show_findings.specs.ErrorSections.{IsDescribed, IsReported};

use crate::bytes::{behind, seen_at};
use crate::entries::{data_part, head_size};
use apei_bytes::{Guid, byte_at, bytes_at, get_u16, get_u32, guid_at};
use field_lines::{data_entry, section_descriptor, text_told};

const DESCRIPTOR: usize = 72;

/// A section of an error: what its descriptor in a record says of it, or its data entry in a block, and its body, as far as it is there.
#[derive(Clone, Copy)]
pub(crate) struct ErrorSection<'a> {
    pub kind: Guid,
    pub severity: u32,
    /// Its flags (UEFI 2.8, N.2.2).
    pub flags: u32,
    /// The text of its part (FRU text), empty where there is none.
    pub label: &'a [u8],
    pub body: &'a [u8],
}

/// The section of a record whose descriptor begins at a place (UEFI 2.8, N.2.2).
pub(crate) fn described(bytes: &[u8], at: usize) -> ErrorSection<'_>
    requires { at + 72 ≤ length bytes.now }
    ensures { IsDescribed bytes.now at result.kind result.severity result.flags result.label.now result.body.now }
{
    let descriptor = bytes_at(bytes, at, DESCRIPTOR);
    ErrorSection {
        kind: guid_at(descriptor, 16),
        severity: get_u32(descriptor, 48),
        flags: get_u32(descriptor, 12),
        label: text_told(&section_descriptor(), "FRU text", descriptor),
        body: seen_at(
            bytes,
            get_u32(descriptor, 0) as usize,
            get_u32(descriptor, 4) as usize,
        ),
    }
}

/// The section of the data entry that begins at a place of a block (ACPI 6.4, 18.3.2.7.1).
pub(crate) fn reported(block: &[u8], at: usize) -> ErrorSection<'_>
    requires { HasDataEntry block.now at }
    ensures { IsReported block.now at result.kind result.severity result.flags result.label.now result.body.now }
{
    let entry = behind(data_part(block), at);
    ErrorSection {
        kind: guid_at(entry, 0),
        severity: get_u32(entry, 16),
        flags: u32::from(byte_at(entry, 23)),
        label: text_told(&data_entry(get_u16(entry, 20)), "FRU text", entry),
        body: seen_at(entry, head_size(entry), get_u32(entry, 24) as usize),
    }
}
