// A file, item by item.
ghost use Rattle.std.specs.Prelude.{◌≡◌, [], OnOk, false};
ghost use Rattle.show_items.specs.Beginnings.{IfStopped};
ghost use Rattle.show_items.specs.Files.{AreItemsOf, ShowsFile, StopsFile};
ghost use Rattle.show_items.specs.Images.{IsSized};
ghost use Rattle.show_items.specs.Judged.{ShowsAll, StopsIn};
ghost use Rattle.show_items.specs.Stops.{HasStop};

use crate::dumps::show_dump;
use crate::images::show_image;
use crate::media::show_medium;
use crate::pages::{Pages, Stop};
use crate::sequences::show_sequence;
use crate::sheet::Sheet;
use crate::singles::{show_dmesg, show_empty, show_machine_check, show_packed};
use crate::storage::show_qemu;
use show_findings::{FileKind, kind_of};

/// Shows what a file of this name holds: each item on the sheet, which goes to the pages as it grows.
pub fn show_file<P: Pages>(
    sheet: &mut Sheet<'_>,
    pages: &mut P,
    name: &[u8],
    bytes: &[u8],
) -> Result<(), Stop>
    ensures shown { OnOk result (ShowsFile name.now bytes.now
        (P.written pages.old) (P.written pages.new) sheet.old sheet.new) }
    ensures written { OnOk result (sheet.new.out.items ≡ []) }
    ensures cause { HasStop (P.failures pages.old) (P.failures pages.new) result }
    ensures stopped { IfStopped result (StopsFile name.now bytes.now
        (P.written pages.old) (P.written pages.new) sheet.old) }
{
    show_kind(sheet, pages, kind_of(name, bytes), bytes)?;
    sheet.finish(pages)
}

// Shows what a file of a kind holds.
fn show_kind<P: Pages>(
    sheet: &mut Sheet<'_>,
    pages: &mut P,
    kind: FileKind,
    bytes: &[u8],
) -> Result<(), Stop>
    requires { IsSized kind bytes.now }
    ensures shown { OnOk result (ShowsAll (AreItemsOf false kind bytes.now)
        (P.written pages.old) (P.written pages.new) sheet.old sheet.new) }
    ensures cause { HasStop (P.failures pages.old) (P.failures pages.new) result }
    ensures stopped { IfStopped result (StopsIn (λ early. AreItemsOf early kind bytes.now)
        (P.written pages.old) (P.written pages.new) sheet.old) }
{
    match kind {
        FileKind::Dump => show_dump(sheet, pages, bytes)?,
        FileKind::Qemu => show_qemu(sheet, pages, bytes)?,
        FileKind::Medium => show_medium(sheet, pages, bytes)?,
        FileKind::Image(geometry) => show_image(sheet, pages, &geometry, bytes)?,
        FileKind::Packed => show_packed(sheet, bytes)?,
        FileKind::MachineCheck => show_machine_check(sheet, bytes)?,
        FileKind::Dmesg => show_dmesg(sheet, bytes)?,
        FileKind::Empty => show_empty(sheet)?,
        FileKind::Records
        | FileKind::Tables
        | FileKind::Blocks
        | FileKind::Blank
        | FileKind::Unknown => show_sequence(sheet, pages, bytes)?,
    }
    Ok(())
}
