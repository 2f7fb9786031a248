// Items one after another.
ghost use Rattle.std.specs.Prelude.{◌≡◌, ◌≤◌, ◌<◌, length, drop, IfOk, OnOk, false};
ghost use Rattle.show_items.specs.Beginnings.{IfStopped};
ghost use Rattle.show_items.specs.Judged.{ShowsAll, ShowsOne, StopsAll, StopsIn, StopsOne};
ghost use Rattle.show_items.specs.Sequences.{AreFirst, AreItems, IsItemAs, first_len, kind_of_item};
ghost use Rattle.show_items.specs.Stops.{HasStop};

use crate::blocks::show_block;
use crate::pages::{Pages, Stop};
use crate::records::show_record;
use crate::sheet::Sheet;
use crate::singles::{show_blank, show_unknown};
use crate::tables::show_table;
use show_findings::{FileKind, Item, item_len, kind_behind};

/// Shows the items that stand one after another, each of the kind that it begins with. Bytes that hold nothing behind the last one are no item.
pub(crate) fn show_sequence<P: Pages>(
    sheet: &mut Sheet<'_>,
    pages: &mut P,
    bytes: &[u8],
) -> Result<(), Stop>
    ensures shown { OnOk result (ShowsAll (AreItems false 0 bytes.now)
        (P.written pages.old) (P.written pages.new) sheet.old sheet.new) }
    ensures cause { HasStop (P.failures pages.old) (P.failures pages.new) result }
    ensures stopped { IfStopped result (StopsIn (λ early. AreItems early 0 bytes.now)
        (P.written pages.old) (P.written pages.new) sheet.old) }
{
    let mut rest = bytes;
    let mut at: u64 = 0;
    while !rest.is_empty() {
        let len = show_next(sheet, pages, at, rest)?;
        at = at.saturating_add(len as u64);
        rest = behind(rest, len);
    }
    Ok(())
}

// The bytes behind the first ones.
fn behind(bytes: &[u8], len: usize) -> &[u8]
    requires { len ≤ length bytes.now }
    ensures { result.now ≡ drop len bytes.now }
{
    &bytes[len..]
}

// Shows what stands first, and says how many bytes it has.
fn show_next<P: Pages>(
    sheet: &mut Sheet<'_>,
    pages: &mut P,
    at: u64,
    rest: &[u8],
) -> Result<usize, Stop>
    requires { 0 < length rest.now }
    ensures shown { OnOk result (ShowsAll (AreFirst at rest.now)
        (P.written pages.old) (P.written pages.new) sheet.old sheet.new) }
    ensures cause { HasStop (P.failures pages.old) (P.failures pages.new) result }
    ensures stopped { IfStopped result (StopsAll (AreFirst at rest.now)
        (P.written pages.old) (P.written pages.new) sheet.old) }
    ensures exact { IfOk result (λ len. len ≡ first_len rest.now) }
    ensures some { IfOk result (λ len. 0 < len) }
    ensures within { IfOk result (λ len. len ≤ length rest.now) }
{
    let item = match kind_behind(rest) {
        FileKind::Records => Item::Record,
        FileKind::Tables => Item::Table,
        FileKind::Blocks => Item::Block,
        FileKind::Blank if at > 0 => return Ok(rest.len()),
        FileKind::Blank => {
            show_blank(sheet, at, rest)?;
            return Ok(rest.len());
        }
        _ => {
            show_unknown(sheet, at, rest)?;
            return Ok(rest.len());
        }
    };
    let len = item_len(item, rest);
    show_item(sheet, pages, item, at, &rest[..len])?;
    Ok(len)
}

fn show_item<P: Pages>(
    sheet: &mut Sheet<'_>,
    pages: &mut P,
    item: Item,
    at: u64,
    bytes: &[u8],
) -> Result<(), Stop>
    ensures shown { OnOk result (ShowsOne (IsItemAs (kind_of_item item) at bytes.now)
        (P.written pages.old) (P.written pages.new) sheet.old sheet.new) }
    ensures cause { HasStop (P.failures pages.old) (P.failures pages.new) result }
    ensures stopped { IfStopped result (StopsOne (IsItemAs (kind_of_item item) at bytes.now)
        (P.written pages.old) (P.written pages.new) sheet.old) }
{
    match item {
        Item::Record => show_record(sheet, pages, Some(at), bytes),
        Item::Table => show_table(sheet, pages, Some(at), bytes),
        Item::Block => show_block(sheet, pages, Some(at), bytes),
    }
}
