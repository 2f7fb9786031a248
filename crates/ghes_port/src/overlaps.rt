// Parts of sources that are unaligned, end too late or have a byte in common.
ghost use Rattle.std.specs.Prelude.{◌≡◌, ◌<◌, ◌+◌, ◌%◌, ◌^◌, ◌≤◌, ◌==◌, nat_lt, OnOk, MatchResult, Some, None};
ghost use Rattle.ghes_port.specs.Places.{index_of, octets};
ghost use Rattle.ghes_port.specs.Setups.{cross, is_aligned, is_late, ack_is_aligned, ack_is_late, ack_crosses, address_crosses, are_aligned, ends_late, meets_itself, place_fault, meets, ack_meets, maps_meet};

use crate::errors::OpenError;
use crate::maps::{AckRegister, SourceMap};
use crate::writes::size_of;
use apei_tables::{Place, Width};

/// A place among all bytes: those of memory, and after its 2^64 addresses those of I/O space.
fn index_of(place: Place) -> u128
    ensures value { result ≡ index_of place }
    ensures small { result < 2 ^ 65 }
{
    match place {
        Place::Memory(at) => u128::from(at),
        Place::Io(at) => (1 << 64) + u128::from(at),
    }
}

/// Whether the `n` bytes at `at` and the `m` bytes at `other` have one in common.
fn cross(at: Place, n: u32, other: Place, m: u32) -> bool
    ensures { result ≡ cross (index_of at) n (index_of other) m }
{
    let (first, second) = (index_of(at), index_of(other));
    second < first + u128::from(n) && first < second + u128::from(m)
}

/// Whether a place is a multiple of an access.
fn is_aligned(place: Place, access: Width) -> bool
    ensures { result ≡ is_aligned place (octets access) }
{
    let (Place::Memory(at) | Place::Io(at)) = place;
    match access {
        Width::B8 => true,
        Width::B16 => at % 2 == 0,
        Width::B32 => at % 4 == 0,
        Width::B64 => at % 8 == 0,
    }
}

/// Whether some bytes end past the last of their space.
fn is_late(place: Place, n: u32) -> bool
    ensures { result ≡ is_late place n }
{
    match place {
        Place::Memory(at) => u128::from(at) + u128::from(n) > u128::from(u64::MAX),
        Place::Io(at) => u128::from(at) + u128::from(n) > 65536,
    }
}

fn are_aligned(map: &SourceMap) -> bool
    ensures { result ≡ are_aligned map.now }
{
    if map.block % 4 != 0 || !is_aligned(map.address.place, map.address.access) {
        return false;
    }
    match &map.ack {
        Some(ack) => is_aligned(ack.place, ack.access),
        None => true,
    }
}

fn ends_late(map: &SourceMap) -> bool
    ensures { result ≡ ends_late map.now }
{
    let address = &map.address;
    if is_late(Place::Memory(map.block), map.len)
        || is_late(address.place, size_of(address.access))
    {
        return true;
    }
    match &map.ack {
        Some(ack) => is_late(ack.place, size_of(ack.access)),
        None => false,
    }
}

/// Whether the register of the block's address has a byte in common with some bytes.
fn address_crosses(map: &SourceMap, at: Place, n: u32) -> bool
    ensures { result ≡ address_crosses map.now (index_of at) n }
{
    cross(map.address.place, size_of(map.address.access), at, n)
}

/// Whether an acknowledge register has.
fn ack_crosses(ack: &Option<AckRegister>, at: Place, n: u32) -> bool
    ensures { result ≡ ack_crosses ack.now (index_of at) n }
{
    match ack {
        Some(ack) => cross(ack.place, size_of(ack.access), at, n),
        None => false,
    }
}

/// Whether two parts of a source have a byte in common.
fn meets_itself(map: &SourceMap) -> bool
    ensures { result ≡ meets_itself map.now }
{
    let block = Place::Memory(map.block);
    let address = &map.address;
    address_crosses(map, block, map.len)
        || ack_crosses(&map.ack, address.place, size_of(address.access))
        || ack_crosses(&map.ack, block, map.len)
}

/// Whether the parts of a source lie where they may.
pub(crate) fn check_places(index: u32, map: &SourceMap) -> Result<(), OpenError>
    ensures exact { MatchResult result (λ _. place_fault index map.now ≡ None)
        (λ error. place_fault index map.now ≡ Some error) }
    ensures below { OnOk result (map.now.block + map.now.len < 2 ^ 64) }
{
    if map.block == 0 {
        return Err(OpenError::Zero { index });
    }
    if !are_aligned(map) {
        return Err(OpenError::Alignment { index });
    }
    if ends_late(map) {
        return Err(OpenError::Late { index });
    }
    if meets_itself(map) {
        return Err(OpenError::Clash { index });
    }
    Ok(())
}

/// Whether some bytes have one in common with a source's parts.
fn meets(map: &SourceMap, at: Place, n: u32) -> bool
    ensures { result ≡ meets map.now (index_of at) n }
{
    address_crosses(map, at, n)
        || cross(Place::Memory(map.block), map.len, at, n)
        || ack_crosses(&map.ack, at, n)
}

/// Whether two sources have a byte in common.
pub(crate) fn maps_meet(one: &SourceMap, other: &SourceMap) -> bool
    ensures { result ≡ maps_meet one.now other.now }
{
    let address = &other.address;
    if meets(one, address.place, size_of(address.access))
        || meets(one, Place::Memory(other.block), other.len)
    {
        return true;
    }
    match &other.ack {
        Some(ack) => meets(one, ack.place, size_of(ack.access)),
        None => false,
    }
}
