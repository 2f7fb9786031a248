// Little-endian numbers at a place of a slice.
ghost use Rattle.std.specs.Prelude.{◌≡◌, ◌+◌, ◌≤◌, length};
ghost use Rattle.base_model.specs.Bytes.{number_at, spelled, put_at, SameOutside};

use byteorder::{ByteOrder, LittleEndian};

/// The number in the 2 bytes at `at`.
pub fn get_u16(bytes: &[u8], at: usize) -> u16
    requires { at + 2 ≤ length bytes.now }
    ensures { result ≡ number_at bytes.now at 2 }
{
    LittleEndian::read_u16(&bytes[at..])
}

/// The number in the 4 bytes at `at`.
pub fn get_u32(bytes: &[u8], at: usize) -> u32
    requires { at + 4 ≤ length bytes.now }
    ensures { result ≡ number_at bytes.now at 4 }
{
    LittleEndian::read_u32(&bytes[at..])
}

/// The number in the 8 bytes at `at`.
pub fn get_u64(bytes: &[u8], at: usize) -> u64
    requires { at + 8 ≤ length bytes.now }
    ensures { result ≡ number_at bytes.now at 8 }
{
    LittleEndian::read_u64(&bytes[at..])
}

/// Writes a number into the 2 bytes at `at`.
pub fn put_u16(bytes: &mut [u8], at: usize, value: u16)
    requires { at + 2 ≤ length bytes.old }
    ensures written { bytes.new ≡ put_at bytes.old at (spelled 2 value) }
    ensures reads_back { number_at bytes.new at 2 ≡ value }
    ensures others { SameOutside at 2 bytes.old bytes.new }
{
    LittleEndian::write_u16(&mut bytes[at..], value);
}

/// Writes a number into the 4 bytes at `at`.
pub fn put_u32(bytes: &mut [u8], at: usize, value: u32)
    requires { at + 4 ≤ length bytes.old }
    ensures written { bytes.new ≡ put_at bytes.old at (spelled 4 value) }
    ensures reads_back { number_at bytes.new at 4 ≡ value }
    ensures others { SameOutside at 4 bytes.old bytes.new }
{
    LittleEndian::write_u32(&mut bytes[at..], value);
}

/// Writes a number into the 8 bytes at `at`.
pub fn put_u64(bytes: &mut [u8], at: usize, value: u64)
    requires { at + 8 ≤ length bytes.old }
    ensures written { bytes.new ≡ put_at bytes.old at (spelled 8 value) }
    ensures reads_back { number_at bytes.new at 8 ≡ value }
    ensures others { SameOutside at 8 bytes.old bytes.new }
{
    LittleEndian::write_u64(&mut bytes[at..], value);
}
