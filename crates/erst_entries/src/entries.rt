// One instruction entry, and its bytes.
ghost use Rattle.std.specs.Prelude.{◌≡◌, length};
ghost use Rattle.erst_entries.specs.Layout.{entry_spelling, IsEntry};

use apei_bytes::{array_at, get_u64, put_u64, write_array};
use apei_tables::Gas;

/// The bytes of an entry.
pub const ENTRY: usize = 32;

/// A serialization instruction entry (ACPI 6.4, section 18.5.1.2). Bit 0 of `flags` is PRESERVE_REGISTER; `spare` is the
/// reserved byte, which is kept.
#[derive(Clone, Copy, Debug, PartialEq, Eq)]
pub struct Entry {
    pub action: u8,
    pub code: u8,
    pub flags: u8,
    pub spare: u8,
    pub region: Gas,
    pub value: u64,
    pub mask: u64,
}

impl Entry {
    /// The entry that these bytes are. Every 32 bytes are one.
    pub fn read(bytes: &[u8]) -> Entry
        requires { length bytes.now ≡ 32 }
        ensures spelled { bytes.now ≡ entry_spelling result }
        ensures fits { IsEntry result }
    {
        let region = Gas::decode(&array_at(bytes, 4));
        Entry {
            action: bytes[0],
            code: bytes[1],
            flags: bytes[2],
            spare: bytes[3],
            region,
            value: get_u64(bytes, 16),
            mask: get_u64(bytes, 24),
        }
    }

    /// Its 32 bytes.
    pub fn spell(&self) -> [u8; 32]
        ensures { result ≡ entry_spelling self.now }
    {
        let mut bytes = [0; ENTRY];
        write_array(
            &mut bytes,
            0,
            &[self.action, self.code, self.flags, self.spare],
        );
        write_array(&mut bytes, 4, &self.region.encode());
        put_u64(&mut bytes, 16, self.value);
        put_u64(&mut bytes, 24, self.mask);
        bytes
    }
}
