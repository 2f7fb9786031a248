// One error data entry (ACPI 6.4, table 18.13).
ghost use Rattle.std.specs.Prelude.{◌≡◌, ◌+◌, ◌≤◌, ◌<◌, ◌^◌, if◌then◌else◌, length};
ghost use Rattle.base_model.specs.Bytes.{number_at};
ghost use Rattle.ghes_block.specs.Reading.{entry_head_at, head_size, entry_size, is_stamped, first_entry};
ghost use Rattle.ghes_block.specs.Entries.{value_of};

use apei_bytes::{Guid, array_at, byte_at, bytes_at, get_u16, get_u32, get_u64, guid_at};

/// The bytes of an entry's head without a timestamp, and with one.
pub(crate) const HEAD: usize = 64;

pub(crate) const STAMPED_HEAD: usize = 72;

/// What an entry says apart from its data. Severity is 0 recoverable, 1 fatal, 2 corrected, 3 none. The timestamp is 0
/// where the revision's high byte is below 3, since such an entry has none.
#[derive(Clone, Copy, Debug, PartialEq, Eq)]
pub struct EntryHead {
    pub kind: Guid,
    pub severity: u32,
    pub revision: u16,
    pub validation: u8,
    pub flags: u8,
    pub fru: Guid,
    pub fru_text: [u8; 20],
    pub stamp: u64,
}

/// An entry, and its data as a part of the block.
#[derive(Clone, Copy)]
pub struct DataEntry<'a> {
    pub head: EntryHead,
    pub body: &'a [u8],
}

/// Whether an entry of this revision has a timestamp.
pub(crate) fn has_stamp(revision: u16) -> bool
    ensures { result ≡ is_stamped revision }
{
    revision / 256 >= 3
}

/// The bytes of the head of the entry that stands first.
pub(crate) fn head_size_of(bytes: &[u8]) -> usize
    requires { 64 ≤ length bytes.now }
    ensures { result ≡ head_size bytes.now }
{
    if has_stamp(get_u16(bytes, 20)) {
        STAMPED_HEAD
    } else {
        HEAD
    }
}

/// The bytes of the entry that stands first.
pub(crate) fn size_of_entry(bytes: &[u8]) -> usize
    requires { 64 ≤ length bytes.now }
    ensures { result ≡ entry_size bytes.now }
{
    head_size_of(bytes) + get_u32(bytes, 24) as usize
}

fn stamp_of(bytes: &[u8]) -> u64
    requires head { 64 ≤ length bytes.now }
    requires stamp { head_size bytes.now ≤ length bytes.now }
    ensures { result ≡ (if is_stamped (number_at bytes.now 20 2) then number_at bytes.now 64 8 else 0) }
{
    if has_stamp(get_u16(bytes, 20)) {
        get_u64(bytes, 64)
    } else {
        0
    }
}

impl EntryHead {
    /// Reads the head of the entry that stands first.
    pub(crate) fn read(bytes: &[u8]) -> EntryHead
        requires head { 64 ≤ length bytes.now }
        requires stamp { head_size bytes.now ≤ length bytes.now }
        ensures { result ≡ entry_head_at bytes.now }
    {
        EntryHead {
            kind: guid_at(bytes, 0),
            severity: get_u32(bytes, 16),
            revision: get_u16(bytes, 20),
            validation: byte_at(bytes, 22),
            flags: byte_at(bytes, 23),
            fru: guid_at(bytes, 28),
            fru_text: array_at(bytes, 44),
            stamp: stamp_of(bytes),
        }
    }
}

impl<'a> DataEntry<'a> {
    /// Reads the entry that stands first, and says how many bytes it has.
    pub(crate) fn read(bytes: &'a [u8]) -> (DataEntry<'a>, u64)
        requires head { 64 ≤ length bytes.now }
        requires fits { entry_size bytes.now ≤ length bytes.now }
        ensures entry { value_of result.0 ≡ first_entry bytes.now }
        ensures size { result.1 ≡ entry_size bytes.now }
    {
        let head = head_size_of(bytes);
        let size = get_u32(bytes, 24) as usize;
        let entry = DataEntry {
            head: EntryHead::read(bytes),
            body: bytes_at(bytes, head, size),
        };
        (entry, (head + size) as u64)
    }
}
