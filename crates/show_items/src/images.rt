// The flash of a record store: its records in slots.
ghost use Rattle.std.specs.Prelude.{◌≡◌, ◌<◌, [], length, OnOk, Some, false};
ghost use Rattle.image_survey.specs.Shown.{AreShown};
ghost use Rattle.show_items.specs.Beginnings.{IfStopped};
ghost use Rattle.show_items.specs.Images.{AreImageItems, AreRecordsFrom, HasSize, IsFlash, IsRecordIn, is_first};
ghost use Rattle.show_items.specs.Judged.{ShowsAll, ShowsOne, StopsIn};
ghost use Rattle.show_items.specs.Places.{ShowsIf, StopsIf};
ghost use Rattle.show_items.specs.Stops.{HasStop};

use crate::pages::{Pages, Stop};
use crate::records::show_record;
use crate::sheet::{Item, Sheet};
use flash_model::Geometry;
use image_survey::{SlotView, count_slots, record_at, survey_slots};
use std::alloc::AllocError;

/// Shows the flash of a record store, and its records.
pub(crate) fn show_image<P: Pages>(
    sheet: &mut Sheet<'_>,
    pages: &mut P,
    geometry: &Geometry,
    image: &[u8],
) -> Result<(), Stop>
    requires { HasSize geometry.now image.now }
    ensures shown { OnOk result (ShowsAll (AreImageItems false geometry.now image.now)
        (P.written pages.old) (P.written pages.new) sheet.old sheet.new) }
    ensures cause { HasStop (P.failures pages.old) (P.failures pages.new) result }
    ensures stopped { IfStopped result (StopsIn (λ early. AreImageItems early geometry.now image.now)
        (P.written pages.old) (P.written pages.new) sheet.old) }
{
    let views = survey_slots(sheet.alloc(), image, geometry)?;
    show_flash(sheet, image, geometry, &views)?;
    show_records(sheet, pages, image, geometry, &views)
}

// Shows how the flash is divided, and how many records it holds.
fn show_flash(
    sheet: &mut Sheet<'_>,
    image: &[u8],
    geometry: &Geometry,
    views: &[SlotView],
) -> Result<(), AllocError>
    requires { length views.now ≡ geometry.now.slots }
    ensures { OnOk result (ShowsOne (IsFlash image.now) (Some []) (Some []) sheet.old sheet.new) }
{
    let mut sentence = String::new(sheet.alloc());
    add_division(&mut sentence, geometry)?;
    let records = count_slots(views, geometry).records;
    write!(sentence, ", {records} records")?;
    let item = Item {
        kind: "image",
        at: Some(0),
        bytes: image,
    };
    sheet.begin(&item, sentence.as_str())?;
    sheet.end(&None)
}

fn add_division(out: &mut String, geometry: &Geometry) -> Result<(), AllocError> {
    let slots = geometry.slots();
    let per_slot = geometry.per_slot();
    let sector = geometry.sector();
    write!(
        out,
        "flash of a record store, {slots} slots of {per_slot} sectors of {sector} bytes"
    )
}

fn show_records<P: Pages>(
    sheet: &mut Sheet<'_>,
    pages: &mut P,
    image: &[u8],
    geometry: &Geometry,
    views: &[SlotView],
) -> Result<(), Stop>
    requires sized { HasSize geometry.now image.now }
    requires all { length views.now ≡ geometry.now.slots }
    requires viewed { AreShown geometry.now.slot_size geometry.now.slots image.now views.now }
    ensures shown { OnOk result (ShowsAll (AreRecordsFrom false geometry.now image.now 0 geometry.now.slots)
        (P.written pages.old) (P.written pages.new) sheet.old sheet.new) }
    ensures cause { HasStop (P.failures pages.old) (P.failures pages.new) result }
    ensures stopped { IfStopped result (StopsIn (λ early. AreRecordsFrom early geometry.now image.now 0 geometry.now.slots)
        (P.written pages.old) (P.written pages.new) sheet.old) }
{
    for slot in 0..geometry.slots as u32 {
        show_slot(sheet, pages, image, geometry, views, slot)?;
    }
    Ok(())
}

// Shows the record whose first slot a slot is.
fn show_slot<P: Pages>(
    sheet: &mut Sheet<'_>,
    pages: &mut P,
    image: &[u8],
    geometry: &Geometry,
    views: &[SlotView],
    slot: u32,
) -> Result<(), Stop>
    requires sized { HasSize geometry.now image.now }
    requires all { length views.now ≡ geometry.now.slots }
    requires viewed { AreShown geometry.now.slot_size geometry.now.slots image.now views.now }
    requires slot { slot < geometry.now.slots }
    ensures shown { OnOk result (ShowsIf (is_first geometry.now image.now slot) (IsRecordIn geometry.now image.now slot)
        (P.written pages.old) (P.written pages.new) sheet.old sheet.new) }
    ensures cause { HasStop (P.failures pages.old) (P.failures pages.new) result }
    ensures stopped { IfStopped result (StopsIf (is_first geometry.now image.now slot) (IsRecordIn geometry.now image.now slot)
        (P.written pages.old) (P.written pages.new) sheet.old) }
{
    match record_at(sheet.alloc(), image, geometry, views, slot)? {
        Some(bytes) => show_record(sheet, pages, None, &bytes),
        None => Ok(()),
    }
}
