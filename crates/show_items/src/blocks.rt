// Error status blocks (ACPI 6.4, section 18.3.2.7.1).
ghost use Rattle.std.specs.Prelude.{◌<◌, ◌≤◌, ◌^◌, ◌+◌, [], ◌∷◌, ◌++◌, length, Some, codes, OnOk};
ghost use Rattle.base_model.specs.Bytes.{part};
ghost use Rattle.show_findings.specs.Places.{seen_number};
ghost use Rattle.show_items.specs.Beginnings.{IfStopped};
ghost use Rattle.show_items.specs.Blocks.{IsBlock, block_groups, entry_groups, entry_structure, head_group, raw_groups, raw_of};
ghost use Rattle.show_items.specs.Groups.{fields_group, typed};
ghost use Rattle.show_items.specs.Judged.{ShowsOne, StopsOne};
ghost use Rattle.show_items.specs.Records.{section_group};
ghost use Rattle.show_items.specs.Parts.{part_groups};
ghost use Rattle.show_items.specs.Sheets.{AddsGroups, GroupsBegun};
ghost use Rattle.show_items.specs.Stops.{HasStop};

use crate::faults::fault_in;
use crate::groups::Group;
use crate::pages::{Pages, Stop};
use crate::parts::{Part, add_parts, block_parts};
use crate::records::add_section;
use crate::sheet::{Form, Item, Sheet};
use apei_bytes::guid_at;
use field_lines::{block_status, data_entry};
use item_parts::Item as Decoded;
use show_findings::{DataEntry, add_block, data_entry_at, seen_at, seen_u16, seen_u32};
use std::alloc::AllocError;

// The bytes of a block's head.
const HEADER: usize = 20;

/// Shows a block, which begins at a place of its file.
pub(crate) fn show_block<P: Pages>(
    sheet: &mut Sheet<'_>,
    pages: &mut P,
    at: Option<u64>,
    bytes: &[u8],
) -> Result<(), Stop>
    ensures shown { OnOk result (ShowsOne (IsBlock at bytes.now) (P.written pages.old) (P.written pages.new)
        sheet.old sheet.new) }
    ensures cause { HasStop (P.failures pages.old) (P.failures pages.new) result }
    ensures stopped { IfStopped result (StopsOne (IsBlock at bytes.now)
        (P.written pages.old) (P.written pages.new) sheet.old) }
{
    let item = Item {
        kind: "block",
        at,
        bytes,
    };
    let mut sentence = String::new(sheet.alloc());
    add_block(&mut sentence, bytes)?;
    let fault = fault_in(sheet, Decoded::Block, bytes)?;
    let parts = block_parts(sheet, bytes)?;
    sheet.begin(&item, sentence.as_str())?;
    add_groups(sheet, pages, bytes, &parts)?;
    sheet.end(&fault)?;
    sheet.turn(pages)
}

fn add_groups<P: Pages>(
    sheet: &mut Sheet<'_>,
    pages: &mut P,
    bytes: &[u8],
    parts: &[Part<'_>],
) -> Result<(), Stop>
    ensures groups { OnOk result (AddsGroups (block_groups bytes.now ++ part_groups parts.now) (P.written pages.old) (P.written pages.new)
        sheet.old sheet.new) }
    ensures cause { HasStop (P.failures pages.old) (P.failures pages.new) result }
    ensures stopped { IfStopped result (GroupsBegun (block_groups bytes.now ++ part_groups parts.now)
        (P.written pages.old) (P.written pages.new) sheet.old) }
{
    if sheet.form() == Form::Brief {
        return Ok(());
    }
    add_head(sheet, bytes)?;
    add_entries(sheet, pages, bytes)?;
    add_raw(sheet, bytes)?;
    add_parts(sheet, pages, parts)
}

fn add_head(sheet: &mut Sheet<'_>, bytes: &[u8]) -> Result<(), AllocError>
    ensures { OnOk result (AddsGroups (head_group bytes.now ∷ []) (Some []) (Some []) sheet.old sheet.new) }
{
    let group = Group {
        name: "header",
        index: None,
        kind: None,
        base: 0,
    };
    let layout = block_status();
    sheet.add_group(&group, &layout, seen_at(bytes, 0, HEADER))
}

fn add_entries<P: Pages>(sheet: &mut Sheet<'_>, pages: &mut P, bytes: &[u8]) -> Result<(), Stop>
    ensures groups { OnOk result (AddsGroups (entry_groups bytes.now (length bytes.now) 0 20)
        (P.written pages.old) (P.written pages.new) sheet.old sheet.new) }
    ensures cause { HasStop (P.failures pages.old) (P.failures pages.new) result }
    ensures stopped { IfStopped result (GroupsBegun (entry_groups bytes.now (length bytes.now) 0 20)
        (P.written pages.old) (P.written pages.new) sheet.old) }
{
    let mut at = HEADER;
    let mut index: u64 = 0;
    while let Some(entry) = data_entry_at(bytes, at) {
        add_entry(sheet, index, at, &entry)?;
        sheet.turn(pages)?;
        at = entry.next;
        index += 1;
    }
    Ok(())
}

fn add_entry(
    sheet: &mut Sheet<'_>,
    index: u64,
    at: usize,
    entry: &DataEntry<'_>,
) -> Result<(), AllocError>
    requires whole { 22 ≤ length entry.now.head.now }
    requires head { at + length entry.now.head.now < 2 ^ 64 }
    requires body { entry.now.body_at + length entry.now.body.now < 2 ^ 64 }
    ensures { OnOk result (AddsGroups
        (fields_group (typed (codes "entry") index (part entry.now.head.now 0 16) at)
        (entry_structure (seen_number entry.now.head.now 20 2)) entry.now.head.now
        ∷ section_group index (part entry.now.head.now 0 16) entry.now.body_at entry.now.body.now ∷ [])
        (Some []) (Some []) sheet.old sheet.new) }
{
    let kind = guid_at(entry.head, 0);
    let group = Group {
        name: "entry",
        index: Some(index),
        kind: Some(kind),
        base: at as u64,
    };
    let layout = data_entry(seen_u16(entry.head, 20));
    sheet.add_group(&group, &layout, entry.head)?;
    add_section(sheet, index, &kind, entry.body_at as u64, entry.body)
}

fn add_raw(sheet: &mut Sheet<'_>, bytes: &[u8]) -> Result<(), AllocError>
    ensures { OnOk result (AddsGroups (raw_groups (seen_number bytes.now 4 4) (raw_of bytes.now)) (Some []) (Some [])
        sheet.old sheet.new) }
{
    let at = seen_u32(bytes, 4);
    let raw = seen_at(bytes, at as usize, seen_u32(bytes, 8) as usize);
    if raw.is_empty() {
        return Ok(());
    }
    let group = Group {
        name: "raw",
        index: None,
        kind: None,
        base: u64::from(at),
    };
    sheet.add_bytes(&group, raw)
}
