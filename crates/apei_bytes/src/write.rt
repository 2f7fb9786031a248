// Fields written one behind another: each call answers the place behind its field.
ghost use Rattle.std.specs.Prelude.{◌≡◌, ℕ, ◌+◌, ◌*◌, ◌^◌, ◌<◌, ◌≤◌, length};
ghost use Rattle.base_model.specs.Bytes.{spelled};
ghost use Rattle.apei_bytes.specs.Writing.{Wrote};

use crate::{Guid, put_u16, put_u32, put_u64};

/// Writes bytes at a place.
pub fn write_bytes(out: &mut [u8], at: usize, bytes: &[u8]) -> usize
    requires { at + length bytes.now ≤ length out.old }
    ensures wrote { Wrote out.old out.new at result bytes.now }
    ensures end { result ≡ at + length bytes.now }
{
    let end = at + bytes.len();
    out[at..end].copy_from_slice(bytes);
    end
}

/// Writes an array at a place.
pub fn write_array<const N: usize>(out: &mut [u8], at: usize, array: &[u8; N]) -> usize
    requires { at + N ≤ length out.old }
    ensures wrote { Wrote out.old out.new at result array.now }
    ensures end { result ≡ at + N }
    ensures len { length array.now ≡ N }
{
    write_bytes(out, at, array)
}

/// Writes a GUID at a place.
pub fn write_guid(out: &mut [u8], at: usize, guid: &Guid) -> usize
    requires { at + 16 ≤ length out.old }
    ensures wrote { Wrote out.old out.new at result guid.now }
    ensures end { result ≡ at + 16 }
    ensures len { length guid.now ≡ 16 }
{
    write_array(out, at, &guid.to_bytes())
}

/// Writes a byte at a place.
pub fn write_u8(out: &mut [u8], at: usize, value: u8) -> usize
    requires { at + 1 ≤ length out.old }
    ensures wrote { Wrote out.old out.new at result (spelled 1 value) }
    ensures end { result ≡ at + 1 }
    ensures range { value < 2 ^ 8 }
{
    write_bytes(out, at, &[value])
}

/// Writes a number of 2 bytes at a place.
pub fn write_u16(out: &mut [u8], at: usize, value: u16) -> usize
    requires { at + 2 ≤ length out.old }
    ensures wrote { Wrote out.old out.new at result (spelled 2 value) }
    ensures end { result ≡ at + 2 }
    ensures range { value < 2 ^ 16 }
{
    put_u16(out, at, value);
    at + 2
}

/// Writes a number of 4 bytes at a place.
pub fn write_u32(out: &mut [u8], at: usize, value: u32) -> usize
    requires { at + 4 ≤ length out.old }
    ensures wrote { Wrote out.old out.new at result (spelled 4 value) }
    ensures end { result ≡ at + 4 }
    ensures range { value < 2 ^ 32 }
{
    put_u32(out, at, value);
    at + 4
}

/// Writes a number of 8 bytes at a place.
pub fn write_u64(out: &mut [u8], at: usize, value: u64) -> usize
    requires { at + 8 ≤ length out.old }
    ensures wrote { Wrote out.old out.new at result (spelled 8 value) }
    ensures end { result ≡ at + 8 }
    ensures range { value < 2 ^ 64 }
{
    put_u64(out, at, value);
    at + 8
}
