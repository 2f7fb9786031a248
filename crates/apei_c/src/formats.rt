// The medium of a geometry, and its format.
ghost use Rattle.std.specs.Prelude.{◌≡◌, ◌<◌, ◌^◌, Some, IfSome, IfNone};
ghost use Rattle.flash_model.specs.Limits.{IsGeometry};
ghost use Rattle.apei_c.specs.declared.status.Status.{Status as AnyStatus};
ghost use Rattle.apei_c.specs.Statuses.{number_of};
ghost use Rattle.apei_c.specs.Buffers.{told_change};
ghost use Rattle.apei_c.specs.Formats.{Divides, TellsSize, TellsNext, Formats, HandsOut, kind_of};

use crate::buffers::fill;
use crate::status::Status;
use crate::structs::{MediumChange, MediumGeometry};
use flash_model::Geometry;
use image_survey::{Content, FormatChange, format_change, medium_size};

/// The geometry of these numbers.
pub fn geometry_of(numbers: &MediumGeometry) -> Option<Geometry>
    ensures some { IfSome result (Divides numbers.now) }
    ensures none { IfNone result (IsGeometry numbers.now.sector numbers.now.sectors_per_slot numbers.now.slots → ⊥) }
{
    Geometry::new(
        u64::from(numbers.sector),
        u64::from(numbers.sectors_per_slot),
        u64::from(numbers.slots),
    )
    .ok()
}

fn tell_size(numbers: &MediumGeometry, size: &mut u64) -> Status
    ensures { TellsSize numbers.now size.old result size.new }
{
    let Some(geometry) = geometry_of(numbers) else {
        return Status::Geometry;
    };
    *size = medium_size(&geometry);
    Status::Done
}

fn kind_of(content: &Content) -> u32
    ensures { result ≡ kind_of content.now }
{
    match content {
        Content::Header(_) | Content::Mark(_) => 0,
        Content::Erased => 1,
    }
}

fn hand_out(content: &Content, bytes: &mut [u8]) -> bool
    ensures { HandsOut content.now bytes.old result bytes.new }
{
    match content {
        Content::Header(header) => fill(bytes, header),
        Content::Mark(mark) => fill(bytes, mark),
        Content::Erased => true,
    }
}

fn tell_next(next: &FormatChange, change: &mut MediumChange, bytes: &mut [u8]) -> Status
    requires { next.now.len < 2 ^ 32 }
    ensures { TellsNext (Some next.now) (told_change change.old bytes.old) result (told_change change.new bytes.new) }
{
    if !hand_out(&next.content, bytes) {
        return Status::Short;
    }
    *change = MediumChange {
        offset: next.at,
        length: next.len as u32,
        kind: kind_of(&next.content),
    };
    Status::Done
}

fn tell_change(
    numbers: &MediumGeometry,
    step: u64,
    change: &mut MediumChange,
    bytes: &mut [u8],
) -> Status
    ensures { Formats numbers.now step (told_change change.old bytes.old) result (told_change change.new bytes.new) }
{
    let Some(geometry) = geometry_of(numbers) else {
        return Status::Geometry;
    };
    match format_change(&geometry, step) {
        Some(next) => tell_next(&next, change, bytes),
        None => Status::Nothing,
    }
}

/// The size of a medium of this geometry.
#[unsafe(no_mangle)]
pub extern "C" fn apei_c_medium_size(geometry: &MediumGeometry, size: &mut u64) -> u32
    ensures { (status : AnyStatus) × (result ≡ number_of status) × TellsSize geometry.now size.old status size.new }
{
    tell_size(geometry, size).number()
}

/// A change of a format, with the bytes that it programs.
#[unsafe(no_mangle)]
pub extern "C" fn apei_c_format_change(
    geometry: &MediumGeometry,
    step: u64,
    change: &mut MediumChange,
    bytes: &mut [u8],
) -> u32
    ensures { (status : AnyStatus) × (result ≡ number_of status)
        × Formats geometry.now step (told_change change.old bytes.old) status (told_change change.new bytes.new) }
{
    tell_change(geometry, step, change, bytes).number()
}
