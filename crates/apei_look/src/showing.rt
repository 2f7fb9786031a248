// What of a flash is shown.
ghost use Rattle.std.specs.Prelude.{◌≡◌, ◌*◌, length};
ghost use Rattle.apei_look.specs.Endings.{EndsBy, IsAll, IsCaused, IsTold};
ghost use Rattle.apei_look.specs.Looks.{IsShow, IsStored, IsUnread};
ghost use Rattle.apei_look.specs.Refusals.{named_as};

use crate::host::Host;
use crate::image::Image;
use crate::json::json_of;
use crate::options::Show;
use crate::status::Status;
use crate::text::text_of;
use crate::unread::{Unread, unread_json, unread_text};
use flash_model::Geometry;
use image_survey::{find, record_at, survey_slots};
use std::alloc::{AllocError, Global};

/// Shows the flash of a file that has so many bytes.
pub(crate) fn show_flash<H: Host>(
    host: &mut H,
    alloc: Global,
    bytes: &[u8],
    geometry: &Geometry,
    is_medium: bool,
    held: u64,
    show: Show,
) -> Status
    requires { length bytes.now ≡ geometry.now.slot_size * geometry.now.slots }
    ensures ends { EndsBy (IsShow show is_medium geometry.now held bytes.now)
        (H.written host.old) (H.written host.new) result }
    ensures cause { IsCaused (H.faults host.old) (H.faults host.new) result }
{
    let Ok(views) = survey_slots(alloc, bytes, geometry) else {
        return Status::Memory;
    };
    let image = Image {
        bytes,
        geometry,
        views: &views,
        is_medium,
        held,
    };
    show_image(host, alloc, &image, show)
}

fn show_image<H: Host>(host: &mut H, alloc: Global, image: &Image<'_>, show: Show) -> Status
    ensures ends { EndsBy (IsShow show image.now.is_medium image.now.geometry.now image.now.held image.now.bytes.now)
        (H.written host.old) (H.written host.new) result }
    ensures cause { IsCaused (H.faults host.old) (H.faults host.new) result }
{
    match show {
        Show::Text => write_text(host, text_of(alloc, image)),
        Show::Json => write_text(host, json_of(alloc, image)),
        Show::Record(id) => write_record(host, alloc, image, id),
    }
}

/// Says of a medium that is not shown why that is so. No record of it is written.
pub(crate) fn name_unread<H: Host>(
    host: &mut H,
    alloc: Global,
    held: u64,
    unread: Unread,
    show: Show,
) -> Status
    ensures ends { EndsBy (IsUnread show unread held) (H.written host.old) (H.written host.new) result }
    ensures cause { IsCaused (H.faults host.old) (H.faults host.new) result }
{
    match show {
        Show::Text => named_as(write_text(host, unread_text(alloc, unread)), unread),
        Show::Json => named_as(write_text(host, unread_json(alloc, unread, held)), unread),
        Show::Record(_) => Status::Unread(unread),
    }
}

// How a run ends that said so.
fn named_as(said: Status, unread: Unread) -> Status
    ensures { result ≡ named_as said unread }
{
    match said {
        Status::Done => Status::Unread(unread),
        other => other,
    }
}

// Writes the bytes of a record.
fn write_record<H: Host>(host: &mut H, alloc: Global, image: &Image<'_>, id: u64) -> Status
    ensures ends { EndsBy (IsStored image.now.geometry.now image.now.bytes.now id)
        (H.written host.old) (H.written host.new) result }
    ensures cause { IsCaused (H.faults host.old) (H.faults host.new) result }
{
    let Some(slot) = find(image.views, image.geometry, id) else {
        return Status::NoRecord { id };
    };
    match record_at(alloc, image.bytes, image.geometry, image.views, slot) {
        Ok(Some(bytes)) => write(host, &bytes),
        Ok(None) => Status::NoRecord { id },
        Err(_) => Status::Memory,
    }
}

// Writes a text, where there was memory for it.
fn write_text<H: Host>(host: &mut H, text: Result<String, AllocError>) -> Status
    ensures told { IsTold text (H.written host.old) (H.written host.new) result }
    ensures cause { IsCaused (H.faults host.old) (H.faults host.new) result }
{
    match text {
        Ok(text) => write(host, text.as_bytes()),
        Err(_) => Status::Memory,
    }
}

// Writes to standard output.
fn write<H: Host>(host: &mut H, bytes: &[u8]) -> Status
    ensures ends { EndsBy (IsAll bytes.now) (H.written host.old) (H.written host.new) result }
    ensures cause { IsCaused (H.faults host.old) (H.faults host.new) result }
{
    match host.write(bytes) {
        Ok(()) => Status::Done,
        Err(_) => Status::SinkFault,
    }
}
