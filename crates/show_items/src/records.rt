// Error records (UEFI 2.8, appendix N.2).
ghost use Rattle.std.specs.Prelude.{◌<◌, ◌≤◌, ◌^◌, ◌+◌, [], ◌∷◌, ◌++◌, length, Some, codes, OnOk};
ghost use Rattle.base_model.specs.Bytes.{part};
ghost use Rattle.show_findings.specs.Places.{seen_number};
ghost use Rattle.show_items.specs.Beginnings.{IfStopped};
ghost use Rattle.show_items.specs.Groups.{fields_group, numbered};
ghost use Rattle.show_items.specs.Judged.{ShowsOne, StopsOne};
ghost use Rattle.show_items.specs.Records.{IsRecord, header_group, record_groups, room_of, section_group, section_groups};
ghost use Rattle.show_items.specs.Parts.{part_groups};
ghost use Rattle.show_items.specs.Sheets.{AddsGroups, GroupsBegun};
ghost use Rattle.show_items.specs.Stops.{HasStop};
ghost use Rattle.field_lines.specs.Records.{section_descriptor};

use crate::faults::fault_in;
use crate::groups::Group;
use crate::pages::{Pages, Stop};
use crate::parts::{Part, add_parts, record_parts};
use crate::sheet::{Form, Item, Sheet};
use apei_bytes::{Guid, guid_at};
use field_lines::{record_header, section_descriptor, section_layout};
use item_parts::Item as Decoded;
use show_findings::{Section, add_record, is_of_linux, section_at, seen_at, seen_u16};
use std::alloc::AllocError;

// The bytes of a header.
const HEADER: usize = 128;

// The bodies of sections may name the same bytes. How many times as many bytes as the record has are shown of them.
const TIMES: usize = 16;

/// Shows a record, which begins at a place of its file.
pub(crate) fn show_record<P: Pages>(
    sheet: &mut Sheet<'_>,
    pages: &mut P,
    at: Option<u64>,
    bytes: &[u8],
) -> Result<(), Stop>
    ensures shown { OnOk result (ShowsOne (IsRecord at bytes.now) (P.written pages.old) (P.written pages.new)
        sheet.old sheet.new) }
    ensures cause { HasStop (P.failures pages.old) (P.failures pages.new) result }
    ensures stopped { IfStopped result (StopsOne (IsRecord at bytes.now)
        (P.written pages.old) (P.written pages.new) sheet.old) }
{
    let item = Item {
        kind: "record",
        at,
        bytes,
    };
    let mut sentence = String::new(sheet.alloc());
    add_record(&mut sentence, bytes)?;
    let fault = fault_in(sheet, Decoded::Record, bytes)?;
    let parts = record_parts(sheet, bytes)?;
    sheet.begin(&item, sentence.as_str())?;
    add_groups(sheet, pages, bytes, &parts)?;
    sheet.end(&fault)?;
    sheet.turn(pages)
}

fn add_groups<P: Pages>(
    sheet: &mut Sheet<'_>,
    pages: &mut P,
    bytes: &[u8],
    parts: &[Part<'_>],
) -> Result<(), Stop>
    ensures groups { OnOk result (AddsGroups (record_groups bytes.now ++ part_groups parts.now) (P.written pages.old) (P.written pages.new)
        sheet.old sheet.new) }
    ensures cause { HasStop (P.failures pages.old) (P.failures pages.new) result }
    ensures stopped { IfStopped result (GroupsBegun (record_groups bytes.now ++ part_groups parts.now)
        (P.written pages.old) (P.written pages.new) sheet.old) }
{
    if sheet.form() == Form::Brief {
        return Ok(());
    }
    add_header(sheet, bytes)?;
    add_sections(sheet, pages, bytes)?;
    add_parts(sheet, pages, parts)
}

fn add_header(sheet: &mut Sheet<'_>, bytes: &[u8]) -> Result<(), AllocError>
    ensures { OnOk result (AddsGroups (header_group bytes.now ∷ []) (Some []) (Some []) sheet.old sheet.new) }
{
    let group = Group {
        name: "header",
        index: None,
        kind: None,
        base: 0,
    };
    let layout = record_header(is_of_linux(bytes));
    sheet.add_group(&group, &layout, seen_at(bytes, 0, HEADER))
}

fn add_sections<P: Pages>(sheet: &mut Sheet<'_>, pages: &mut P, bytes: &[u8]) -> Result<(), Stop>
    ensures groups { OnOk result (AddsGroups
        (section_groups bytes.now (seen_number bytes.now 10 2) 0 (room_of bytes.now))
        (P.written pages.old) (P.written pages.new) sheet.old sheet.new) }
    ensures cause { HasStop (P.failures pages.old) (P.failures pages.new) result }
    ensures stopped { IfStopped result (GroupsBegun
        (section_groups bytes.now (seen_number bytes.now 10 2) 0 (room_of bytes.now))
        (P.written pages.old) (P.written pages.new) sheet.old) }
{
    let mut room = bytes.len().saturating_mul(TIMES);
    for index in 0..seen_u16(bytes, 10) {
        let Some(section) = section_at(bytes, index) else {
            return Ok(());
        };
        let body = seen_at(section.body, 0, room);
        room -= body.len();
        add_described(sheet, index, &section, body)?;
        sheet.turn(pages)?;
    }
    Ok(())
}

// Shows the descriptor of a section and its body.
fn add_described(
    sheet: &mut Sheet<'_>,
    index: u16,
    section: &Section<'_>,
    body: &[u8],
) -> Result<(), AllocError>
    requires whole { 32 ≤ length section.now.descriptor.now }
    requires head { section.now.at + length section.now.descriptor.now < 2 ^ 64 }
    requires body { section.now.body_at + length body.now < 2 ^ 64 }
    ensures { OnOk result (AddsGroups
        (fields_group (numbered (codes "descriptor") index section.now.at) section_descriptor section.now.descriptor.now
        ∷ section_group index (part section.now.descriptor.now 16 16) section.now.body_at body.now ∷ [])
        (Some []) (Some []) sheet.old sheet.new) }
{
    let group = Group {
        name: "descriptor",
        index: Some(u64::from(index)),
        kind: None,
        base: section.at as u64,
    };
    sheet.add_group(&group, &section_descriptor(), section.descriptor)?;
    let kind = guid_at(section.descriptor, 16);
    add_section(sheet, u64::from(index), &kind, section.body_at as u64, body)
}

/// Shows the body of a section, which begins at a place of its item.
pub(crate) fn add_section(
    sheet: &mut Sheet<'_>,
    index: u64,
    kind: &Guid,
    base: u64,
    body: &[u8],
) -> Result<(), AllocError>
    requires { base + length body.now < 2 ^ 64 }
    ensures { OnOk result (AddsGroups (section_group index kind.now base body.now ∷ []) (Some []) (Some [])
        sheet.old sheet.new) }
{
    let group = Group {
        name: "section",
        index: Some(index),
        kind: Some(*kind),
        base,
    };
    match section_layout(kind) {
        Some(layout) => sheet.add_group(&group, &layout, body),
        None => sheet.add_bytes(&group, body),
    }
}
