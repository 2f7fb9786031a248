// The header of a medium.
ghost use Rattle.std.specs.Prelude.{◌≡◌, ◌+◌, ◌*◌, ◌↔◌, ◌^◌, ◌<◌, ◌≤◌, length, IsTrue, Option, Some, None, MatchOption};
ghost use Rattle.base_model.specs.Bytes.{part};
ghost use Rattle.flash_model.specs.declared.geometry.Geometry.{Geometry};
ghost use Rattle.image_survey.specs.Headers.{header_with, header_of, header_checksum, IsSigned, IsWhole, HasHeader, IsFirstSector, TellsGeometry};
ghost use Rattle.image_survey.specs.Headers.{medium_size as size_of_medium};

use crate::checksum::word_sum;
use apei_bytes::{byte_at, get_u32, get_u64, write_u32, write_u64};
use flash_model::Geometry;

/// The bytes of the header before its marks.
pub(crate) const HEADER: usize = 48;

/// "APEIERST".
const SIGNATURE: u64 = 0x5453_5245_4945_5041;

/// The version of the headers that are written, and the only one that is read.
pub const VERSION: u32 = 1;

/// The bytes of the header with its marks.
const LENGTH: u32 = 64;

/// The mark that makes a header whole, and where it stands.
pub(crate) const WHOLE: u8 = 0x3C;

pub(crate) const WHOLE_AT: u64 = 48;

/// The mark of a medium whose format has begun, and where it stands.
pub(crate) const ENDED: u8 = 0x00;

pub(crate) const ENDED_AT: u64 = 49;

/// The same byte of a medium, as an erased flash has it.
const NOT_ENDED: u8 = 0xFF;

/// What the first sector of a file says of a medium.
#[derive(Clone, Copy, Debug)]
pub enum FirstSector {
    /// It has no signature: the file is no medium.
    Unsigned,
    /// The header is whole, and tells the geometry of the flash behind it. The file may have another size than such a medium.
    Medium(Geometry),
    /// The header is whole, and of another version.
    Version { found: u32 },
    /// The signature stands, and no header that a format made.
    Damaged,
}

/// Why bytes are no medium: the first reason that applies.
#[derive(Clone, Copy, Debug, PartialEq, Eq)]
pub enum MediumError {
    /// They begin with no header that a format made.
    Foreign,
    /// The header is of another version.
    Version { found: u32 },
    /// The medium has another size than its geometry's, in bytes.
    Size { found: u64, wanted: u64 },
}

/// The bytes of a medium of this geometry: one sector more than the flash.
pub fn medium_size(geometry: &Geometry) -> u64
    ensures { result ≡ size_of_medium geometry.now }
{
    geometry.sector() + geometry.size()
}

/// The geometry of the flash on a medium, or why the bytes are none.
pub fn geometry_of(medium: &[u8]) -> Result<Geometry, MediumError>
    ensures { TellsGeometry medium.now result }
{
    match first_sector(medium) {
        FirstSector::Medium(geometry) => sized(medium, geometry),
        FirstSector::Version { found } => Err(MediumError::Version { found }),
        FirstSector::Unsigned | FirstSector::Damaged => Err(MediumError::Foreign),
    }
}

// The geometry, where the medium has its size.
fn sized(medium: &[u8], geometry: Geometry) -> Result<Geometry, MediumError>
    requires { HasHeader geometry medium.now }
    ensures { TellsGeometry medium.now result }
{
    let found = medium.len() as u64;
    let wanted = medium_size(&geometry);
    if found != wanted {
        return Err(MediumError::Size { found, wanted });
    }
    Ok(geometry)
}

/// What the first sector of a file says, by its first 64 bytes.
pub fn first_sector(file: &[u8]) -> FirstSector
    ensures { IsFirstSector file.now result }
{
    if !is_signed(file) {
        return FirstSector::Unsigned;
    }
    if !is_whole(file) {
        return FirstSector::Damaged;
    }
    let version = get_u32(file, 8);
    if version != VERSION {
        return FirstSector::Version { found: version };
    }
    match header_geometry(file) {
        Some(geometry) => FirstSector::Medium(geometry),
        None => FirstSector::Damaged,
    }
}

fn is_signed(file: &[u8]) -> bool
    ensures { IsTrue result ↔ IsSigned file.now }
{
    file.len() >= 8 && get_u64(file, 0) == SIGNATURE
}

fn is_whole(medium: &[u8]) -> bool
    ensures { IsTrue result ↔ IsWhole medium.now }
{
    if medium.len() < LENGTH as usize {
        return false;
    }
    if get_u64(medium, 0) != SIGNATURE {
        return false;
    }
    if byte_at(medium, WHOLE_AT as usize) != WHOLE
        || byte_at(medium, ENDED_AT as usize) != NOT_ENDED
    {
        return false;
    }
    word_sum(medium, HEADER / 4) == 0
}

// The geometry whose header these bytes begin with.
fn header_geometry(medium: &[u8]) -> Option<Geometry>
    requires { IsWhole medium.now }
    ensures { MatchOption result ((geometry : Geometry) → HasHeader geometry medium.now → ⊥)
        (λ geometry. HasHeader geometry medium.now) }
{
    let sector = u64::from(get_u32(medium, 16));
    let per_slot = u64::from(get_u32(medium, 20));
    let slots = u64::from(get_u32(medium, 24));
    let Ok(geometry) = Geometry::new(sector, per_slot, slots) else {
        return None;
    };
    if !begins_with(medium, &header_of(&geometry)) {
        return None;
    }
    Some(geometry)
}

fn begins_with(medium: &[u8], header: &[u8; HEADER]) -> bool
    requires { 48 ≤ length medium.now }
    ensures { IsTrue result ↔ (part medium.now 0 48 ≡ header.now) }
{
    medium[..HEADER] == header[..]
}

/// The header of a medium of a geometry, before its marks.
pub(crate) fn header_of(geometry: &Geometry) -> [u8; HEADER]
    ensures { result ≡ header_of geometry.now }
{
    let unsealed = header_with(geometry, 0);
    let sum = word_sum(&unsealed, HEADER / 4);
    header_with(geometry, sum.wrapping_neg())
}

fn header_with(geometry: &Geometry, checksum: u32) -> [u8; HEADER]
    ensures { result ≡ header_with geometry.now checksum }
{
    let mut header = [0; HEADER];
    let version = write_u64(&mut header, 0, SIGNATURE);
    let length = write_u32(&mut header, version, VERSION);
    let sector = write_u32(&mut header, length, LENGTH);
    let per_slot = write_u32(&mut header, sector, geometry.sector() as u32);
    let slots = write_u32(&mut header, per_slot, geometry.per_slot() as u32);
    let reserved = write_u32(&mut header, slots, geometry.slots() as u32);
    let size = write_u32(&mut header, reserved, 0);
    let sum = write_u64(&mut header, size, medium_size(geometry));
    let end = write_u32(&mut header, sum, checksum);
    write_u32(&mut header, end, 0);
    header
}
