// Numbers and parts in a slice of bytes.
ghost use Rattle.std.specs.Prelude.{◌≡◌, ◌+◌, ◌/◌, ◌<◌, ◌≤◌, ◌^◌, length};
ghost use Rattle.base_model.specs.Bytes.{part, number_at, spelled, put_at};
ghost use Rattle.apei_tables.specs.Access.{bits};

use apei_bytes::{get_u16, get_u32, get_u64, put_u16, put_u32, put_u64};
use apei_tables::Width;

/// The byte at `at`.
fn get_u8(bytes: &[u8], at: usize) -> u8
    requires { at < length bytes.now }
    ensures { result ≡ number_at bytes.now at 1 }
{
    bytes[at]
}

/// Writes a byte at `at`.
fn put_u8(bytes: &mut [u8], at: usize, value: u8)
    requires { at < length bytes.old }
    ensures { bytes.new ≡ put_at bytes.old at (spelled 1 value) }
{
    bytes[at] = value;
}

/// The number at `at`, as wide as the width says.
pub fn get_number(bytes: &[u8], at: usize, width: Width) -> u64
    requires { at + bits width / 8 ≤ length bytes.now }
    ensures value { result ≡ number_at bytes.now at (bits width / 8) }
    ensures small { result < 2 ^ bits width }
{
    match width {
        Width::B8 => u64::from(get_u8(bytes, at)),
        Width::B16 => u64::from(get_u16(bytes, at)),
        Width::B32 => u64::from(get_u32(bytes, at)),
        Width::B64 => get_u64(bytes, at),
    }
}

/// Writes the low bits of a number at `at`, as many as the width has.
pub fn put_number(bytes: &mut [u8], at: usize, width: Width, value: u64)
    requires { at + bits width / 8 ≤ length bytes.old }
    ensures { bytes.new ≡ put_at bytes.old at (spelled (bits width / 8) value) }
{
    match width {
        Width::B8 => put_u8(bytes, at, (value % (1 << 8)) as u8),
        Width::B16 => put_u16(bytes, at, (value % (1 << 16)) as u16),
        Width::B32 => put_u32(bytes, at, (value % (1 << 32)) as u32),
        Width::B64 => put_u64(bytes, at, value),
    }
}

/// Fills `out` with the bytes from `at` on.
pub fn get_part(bytes: &[u8], at: usize, out: &mut [u8])
    requires { at + length out.old ≤ length bytes.now }
    ensures { out.new ≡ part bytes.now at (length out.old) }
{
    out.copy_from_slice(&bytes[at..at + out.len()]);
}

/// Writes bytes at `at`.
pub fn put_part(bytes: &mut [u8], at: usize, others: &[u8])
    requires { at + length others.now ≤ length bytes.old }
    ensures { bytes.new ≡ put_at bytes.old at others.now }
{
    bytes[at..at + others.len()].copy_from_slice(others);
}

/// Copies `n` bytes, which may overlap their target.
pub fn copy_part(bytes: &mut [u8], source: usize, target: usize, n: usize)
    requires from { source + n ≤ length bytes.old }
    requires to { target + n ≤ length bytes.old }
    ensures { bytes.new ≡ put_at bytes.old target (part bytes.old source n) }
{
    bytes.copy_within(source..source + n, target);
}
