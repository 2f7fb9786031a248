// The storage of QEMU's device acpi-erst: a header, a map of identifiers, and records at places of equal size.
ghost use Rattle.std.specs.Prelude.{◌≡◌, ◌+◌, ◌*◌, ◌<◌, ◌≤◌, [], length, Some, OnOk, false};
ghost use Rattle.show_items.specs.Beginnings.{IfStopped};
ghost use Rattle.show_items.specs.Judged.{ShowsAll, ShowsOne, StopsIn, StopsOne};
ghost use Rattle.show_items.specs.Places.{ShowsIf, StopsIf};
ghost use Rattle.show_items.specs.Records.{IsRecord};
ghost use Rattle.show_items.specs.Stops.{HasStop};
ghost use Rattle.show_items.specs.Storage.{AreStorageItems, AreStored, IsStorageHeader, IsStored, has_identifier, identifier, place_size, record_in};

use crate::headers::{qemu_header, show_header};
use crate::pages::{Pages, Stop};
use crate::records::show_record;
use crate::sheet::Sheet;
use apei_bytes::get_u64;
use show_findings::{Item, item_len, seen_at, seen_u32};
use std::alloc::AllocError;

// The bytes of the header, behind which the map of identifiers stands.
const HEADER: usize = 24;

/// Shows the storage of QEMU's device acpi-erst: its header, and the records at whose places its map has an identifier.
pub(crate) fn show_qemu<P: Pages>(
    sheet: &mut Sheet<'_>,
    pages: &mut P,
    bytes: &[u8],
) -> Result<(), Stop>
    ensures shown { OnOk result (ShowsAll (AreStorageItems false bytes.now)
        (P.written pages.old) (P.written pages.new) sheet.old sheet.new) }
    ensures cause { HasStop (P.failures pages.old) (P.failures pages.new) result }
    ensures stopped { IfStopped result (StopsIn (λ early. AreStorageItems early bytes.now)
        (P.written pages.old) (P.written pages.new) sheet.old) }
{
    show_storage(sheet, bytes)?;
    let size = seen_u32(bytes, 8);
    if size == 0 {
        return Ok(());
    }
    show_places(sheet, pages, bytes, size)
}

// Shows the header, and how many records it counts.
fn show_storage(sheet: &mut Sheet<'_>, bytes: &[u8]) -> Result<(), AllocError>
    ensures { OnOk result (ShowsOne (IsStorageHeader bytes.now) (Some []) (Some []) sheet.old sheet.new) }
{
    let records = seen_u32(bytes, 20);
    let mut sentence = String::new(sheet.alloc());
    write!(
        sentence,
        "storage of QEMU's device acpi-erst, {records} records"
    )?;
    show_header(
        sheet,
        "qemu",
        sentence.as_str(),
        &qemu_header(),
        bytes,
        HEADER,
        &None,
    )
}

// Shows the records at the places of this size.
fn show_places<P: Pages>(
    sheet: &mut Sheet<'_>,
    pages: &mut P,
    bytes: &[u8],
    size: u32,
) -> Result<(), Stop>
    requires size { size ≡ place_size bytes.now }
    requires some { 0 < size }
    ensures shown { OnOk result (ShowsAll (AreStored false bytes.now)
        (P.written pages.old) (P.written pages.new) sheet.old sheet.new) }
    ensures cause { HasStop (P.failures pages.old) (P.failures pages.new) result }
    ensures stopped { IfStopped result (StopsIn (λ early. AreStored early bytes.now)
        (P.written pages.old) (P.written pages.new) sheet.old) }
{
    let first = seen_u32(bytes, 12) / size;
    let end = bytes.len() / size as usize;
    for place in first as usize..end {
        show_place(sheet, pages, bytes, size, place)?;
    }
    Ok(())
}

// Shows the record at a place, if the map has an identifier for it.
fn show_place<P: Pages>(
    sheet: &mut Sheet<'_>,
    pages: &mut P,
    bytes: &[u8],
    size: u32,
    place: usize,
) -> Result<(), Stop>
    requires size { size ≡ place_size bytes.now }
    requires within { (place + 1) * size ≤ length bytes.now }
    ensures shown { OnOk result (ShowsIf (has_identifier bytes.now place) (IsStored bytes.now place)
        (P.written pages.old) (P.written pages.new) sheet.old sheet.new) }
    ensures cause { HasStop (P.failures pages.old) (P.failures pages.new) result }
    ensures stopped { IfStopped result (StopsIf (has_identifier bytes.now place) (IsStored bytes.now place)
        (P.written pages.old) (P.written pages.new) sheet.old) }
{
    if !has_identifier(bytes, place) {
        return Ok(());
    }
    let at = place * size as usize;
    show_stored(sheet, pages, at, seen_at(bytes, at, size as usize))
}

// Whether the map has an identifier for a place; 0 and the greatest number are none.
fn has_identifier(bytes: &[u8], place: usize) -> bool
    ensures { result ≡ has_identifier bytes.now place }
{
    let id = identifier(bytes, place);
    id != 0 && id != u64::MAX
}

// What the map has for a place; 0 behind the end.
#[tactic(auto, using(std::proofs::lemmas::Bool::Decides::nat_tests))]
fn identifier(bytes: &[u8], place: usize) -> u64
    ensures { result ≡ identifier bytes.now place }
{
    if bytes.len() < HEADER + 8 || place > (bytes.len() - HEADER - 8) / 8 {
        return 0;
    }
    get_u64(bytes, HEADER + 8 * place)
}

// Shows the record at the start of a place.
fn show_stored<P: Pages>(
    sheet: &mut Sheet<'_>,
    pages: &mut P,
    at: usize,
    place: &[u8],
) -> Result<(), Stop>
    ensures shown { OnOk result (ShowsOne (IsRecord (Some at) (record_in place.now))
        (P.written pages.old) (P.written pages.new) sheet.old sheet.new) }
    ensures cause { HasStop (P.failures pages.old) (P.failures pages.new) result }
    ensures stopped { IfStopped result (StopsOne (IsRecord (Some at) (record_in place.now))
        (P.written pages.old) (P.written pages.new) sheet.old) }
{
    let len = item_len(Item::Record, place);
    show_record(sheet, pages, Some(at as u64), &place[..len])
}
