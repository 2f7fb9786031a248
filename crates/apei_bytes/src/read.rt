// Fields at their places.
ghost use Rattle.std.specs.Prelude.{◌≡◌, ◌+◌, ◌<◌, ◌≤◌, length};
ghost use Rattle.base_model.specs.Bytes.{part, number_at};

use crate::Guid;

/// The bytes at a place, as a part of the slice.
pub fn bytes_at(bytes: &[u8], at: usize, count: usize) -> &[u8]
    requires { at + count ≤ length bytes.now }
    ensures value { result.now ≡ part bytes.now at count }
    ensures len { length result.now ≡ count }
{
    &bytes[at..at + count]
}

/// The bytes of an array at a place.
pub fn array_at<const N: usize>(bytes: &[u8], at: usize) -> [u8; N]
    requires { at + N ≤ length bytes.now }
    ensures { result ≡ part bytes.now at N }
{
    let mut array = [0; N];
    array.copy_from_slice(&bytes[at..at + N]);
    array
}

/// The GUID at a place.
pub fn guid_at(bytes: &[u8], at: usize) -> Guid
    requires { at + 16 ≤ length bytes.now }
    ensures { result ≡ part bytes.now at 16 }
{
    Guid::from_bytes(array_at(bytes, at))
}

/// The byte at a place.
#[tactic(auto, using(crate::proofs::Parts::one_byte))]
pub fn byte_at(bytes: &[u8], at: usize) -> u8
    requires { at + 1 ≤ length bytes.now }
    ensures { result ≡ number_at bytes.now at 1 }
{
    bytes[at]
}
