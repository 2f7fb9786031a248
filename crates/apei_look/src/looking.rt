// A run: what of the image is shown, and why it is not.
ghost use Rattle.std.specs.Prelude.{◌≡◌, ◌^◌, ◌≤◌, true, length, IfSome, string_bytes};
ghost use Rattle.apei_look.specs.Endings.{ending, EndsBy, IsCaused};
ghost use Rattle.apei_look.specs.Entries.{IsFileOf};
ghost use Rattle.apei_look.specs.Looks.{IsFileLook, IsFlashLook, IsLook, IsLookAt, IsLookBy, IsSeeming, IsTaken};
ghost use Rattle.apei_look.specs.Refusals.{ended_as, most_of};

use crate::host::Host;
use crate::image_file::{ImageFile, check_length};
use crate::options::{Options, Show};
use crate::places::{file_size, flash_of};
use crate::showing::{name_unread, show_flash};
use crate::status::Status;
use crate::unread::Unread;
use flash_model::Geometry;
use image_survey::{FirstSector, best_guess, first_sector};
use std::alloc::Global;

// The most bytes that a store's flash has.
const MAX_IMAGE: u64 = 1 << 26;

// The bytes that tell whether a file is a medium.
const HEADER: u64 = 64;

// What is behind the end of a file that is cut off.
const ERASED: u8 = 0xFF;

/// Looks at the image. Where the geometry is outside its limits no file is touched.
pub(crate) fn look<H: Host>(host: &mut H, alloc: Global, options: &Options) -> Status
    ensures ends { IfSome (H.entry host.old (string_bytes options.now.image))
        (λ known. EndsBy (IsLook options.now known) (H.written host.old) (H.written host.new) result) }
    ensures cause { IsCaused (H.faults host.old) (H.faults host.new) result }
{
    let Ok(given) = Geometry::new(options.sector, options.per_slot, options.slots) else {
        return Status::BadGeometry;
    };
    match look_at_path(host, alloc, options, given) {
        Ok(status) => status,
        Err(status) => status,
    }
}

// Looks at what stands at the path.
fn look_at_path<H: Host>(
    host: &mut H,
    alloc: Global,
    options: &Options,
    given: Geometry,
) -> Result<Status, Status>
    ensures ends { IfSome (H.entry host.old (string_bytes options.now.image)) (λ known. EndsBy
        (IsLookAt options.now given known) (H.written host.old) (H.written host.new) (ending result)) }
    ensures cause { IsCaused (H.faults host.old) (H.faults host.new) (ending result) }
{
    let file = ImageFile::open(host, options.image.as_str())?;
    look_at_file(host, alloc, options, given, &file)
}

// Looks at a file: where its first sector says that it is a medium, by what stands there.
fn look_at_file<H: Host>(
    host: &mut H,
    alloc: Global,
    options: &Options,
    given: Geometry,
    file: &ImageFile<H>,
) -> Result<Status, Status>
    requires sized { IfSome (H.content file.now.file) (IsFileOf file.now.size) }
    ensures ends { IfSome (H.content file.now.file) (λ known. EndsBy (IsFileLook options.now given known.bytes)
        (H.written host.old) (H.written host.new) (ending result)) }
    ensures cause { IsCaused (H.faults host.old) (H.faults host.new) (ending result) }
{
    let beginning = file.beginning(host, alloc, HEADER)?;
    match first_sector(&beginning) {
        FirstSector::Unsigned => look_at_flash(host, alloc, options, given, file),
        FirstSector::Medium(geometry) => look_at_medium(host, alloc, options.show, &geometry, file),
        FirstSector::Version { found } => Ok(name_unread(
            host,
            alloc,
            file.size(),
            Unread::Version(found),
            options.show,
        )),
        FirstSector::Damaged => Ok(name_unread(
            host,
            alloc,
            file.size(),
            Unread::Damaged,
            options.show,
        )),
    }
}

// Looks at a medium by the geometry that its first sector tells.
fn look_at_medium<H: Host>(
    host: &mut H,
    alloc: Global,
    show: Show,
    geometry: &Geometry,
    file: &ImageFile<H>,
) -> Result<Status, Status>
    requires sized { IfSome (H.content file.now.file) (IsFileOf file.now.size) }
    ensures ends { IfSome (H.content file.now.file) (λ known. EndsBy
        (IsLookBy show true geometry.now (length known.bytes) known.bytes)
        (H.written host.old) (H.written host.new) (ending result)) }
    ensures cause { IsCaused (H.faults host.old) (H.faults host.new) (ending result) }
{
    let bytes = file.beginning(host, alloc, file_size(geometry, true))?;
    Ok(look_by(host, alloc, bytes, file.size(), geometry, true, show))
}

// Looks at a file that is a flash alone.
fn look_at_flash<H: Host>(
    host: &mut H,
    alloc: Global,
    options: &Options,
    given: Geometry,
    file: &ImageFile<H>,
) -> Result<Status, Status>
    requires sized { IfSome (H.content file.now.file) (IsFileOf file.now.size) }
    ensures ends { IfSome (H.content file.now.file) (λ known. EndsBy
        (IsFlashLook options.now.show options.now.guess given known.bytes)
        (H.written host.old) (H.written host.new) (ending result)) }
    ensures cause { IsCaused (H.faults host.old) (H.faults host.new) (ending result) }
{
    let image = file.bytes(host, alloc, most_of(options.guess, &given))?;
    let geometry = taken(&image, options.guess, given);
    check_length(file.size(), geometry.size())?;
    Ok(look_by(
        host,
        alloc,
        image,
        file.size(),
        &geometry,
        false,
        options.show,
    ))
}

// The most bytes that are looked at: where the geometry is guessed those of any.
fn most_of(is_guessed: bool, given: &Geometry) -> u64
    ensures most { result ≡ most_of is_guessed given.now }
    ensures within { result ≤ 2 ^ 26 }
{
    if is_guessed { MAX_IMAGE } else { given.size() }
}

// The geometry by which an image is looked at.
fn taken(image: &[u8], is_guessed: bool, given: Geometry) -> Geometry
    ensures { IsTaken is_guessed image.now given result }
{
    if is_guessed {
        seeming(image, given)
    } else {
        given
    }
}

// The geometry that an image seems to have, or the one that was given.
fn seeming(image: &[u8], given: Geometry) -> Geometry
    ensures { IsSeeming image.now given result }
{
    match best_guess(image) {
        Some(guess) => guess.geometry,
        None => given,
    }
}

// Looks at a file by a geometry. One that is cut off is shown as far as it goes.
fn look_by<H: Host>(
    host: &mut H,
    alloc: Global,
    mut bytes: Vec<u8>,
    held: u64,
    geometry: &Geometry,
    is_medium: bool,
    show: Show,
) -> Status
    ensures ends { EndsBy (IsLookBy show is_medium geometry.now held bytes.items)
        (H.written host.old) (H.written host.new) result }
    ensures cause { IsCaused (H.faults host.old) (H.faults host.new) result }
{
    let size = file_size(geometry, is_medium);
    if bytes.resize(size as usize, ERASED).is_err() {
        return Status::Memory;
    }
    let flash = flash_of(&bytes, geometry, is_medium);
    let shown = show_flash(host, alloc, flash, geometry, is_medium, held, show);
    ended_as(shown, held, size)
}

// How a run ends that showed a file of so many bytes: one of another length is said to be.
#[tactic(auto, using(std::proofs::lemmas::Bool::Decides::nat_tests))]
fn ended_as(shown: Status, found: u64, wanted: u64) -> Status
    ensures { result ≡ ended_as shown found wanted }
{
    match shown {
        Status::Done if found != wanted => Status::Length { found, wanted },
        other => other,
    }
}
