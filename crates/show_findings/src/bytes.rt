// Bytes as far as they are there.
ghost use Rattle.std.specs.Prelude.{◌≡◌, ◌<◌, length, take, drop};
ghost use Rattle.base_model.specs.Bytes.{part, number_at};
ghost use Rattle.show_findings.specs.Places.{seen_number};

use apei_bytes::{byte_at, get_u16, get_u32, get_u64};

/// So many bytes at a place, or those of them that are there.
#[tactic(auto, unfolding(base_model::specs::Bytes::part))]
pub fn seen_at(bytes: &[u8], at: usize, count: usize) -> &[u8]
    ensures { result.now ≡ part bytes.now at count }
{
    first(behind(bytes, at), count)
}

/// The bytes from a place on.
#[tactic(auto, using(crate::proofs::PlaceLemmas::drop_behind))]
pub(crate) fn behind(bytes: &[u8], at: usize) -> &[u8]
    ensures { result.now ≡ drop at bytes.now }
{
    if at < bytes.len() {
        &bytes[at..]
    } else {
        &bytes[bytes.len()..]
    }
}

/// So many of the first bytes, or as many as there are.
pub(crate) fn first(bytes: &[u8], count: usize) -> &[u8]
    ensures { result.now ≡ take count bytes.now }
{
    if count < bytes.len() {
        &bytes[..count]
    } else {
        bytes
    }
}

/// The number in 4 bytes, or 0 where they aren't all there.
pub fn seen_u32(bytes: &[u8], at: usize) -> u32
    requires { at < 1000 }
    ensures { result ≡ seen_number bytes.now at 4 }
{
    if bytes.len() < at + 4 {
        return 0;
    }
    get_u32(bytes, at)
}

/// The number in 2 bytes, or 0 where they aren't all there.
pub fn seen_u16(bytes: &[u8], at: usize) -> u16
    requires { at < 1000 }
    ensures { result ≡ seen_number bytes.now at 2 }
{
    if bytes.len() < at + 2 {
        return 0;
    }
    get_u16(bytes, at)
}

/// The number in 8 bytes, or 0 where they aren't all there.
pub fn seen_u64(bytes: &[u8], at: usize) -> u64
    requires { at < 1000 }
    ensures { result ≡ seen_number bytes.now at 8 }
{
    if bytes.len() < at + 8 {
        return 0;
    }
    get_u64(bytes, at)
}

/// The byte at a place, or 0 where it isn't there.
pub fn seen_u8(bytes: &[u8], at: usize) -> u8
    requires { at < 1000 }
    ensures { result ≡ seen_number bytes.now at 1 }
{
    if bytes.len() < at + 1 {
        return 0;
    }
    byte_at(bytes, at)
}
