// Tables (ACPI 6.4, sections 5.2.6, 18.3 and 18.5.1).
ghost use Rattle.std.specs.Prelude.{◌≡◌, ◌<◌, ◌^◌, ◌+◌, ◌||◌, [], ◌∷◌, length, is_some, IfOk, IsTrue, OnOk, Some};
ghost use Rattle.field_lines.specs.Layouts.{is_sound_structure};
ghost use Rattle.field_lines.specs.Code.{structure_of};
ghost use Rattle.show_findings.specs.Places.{seen_number};
ghost use Rattle.show_items.specs.Beginnings.{IfStopped};
ghost use Rattle.show_items.specs.Judged.{ShowsOne, StopsOne};
ghost use Rattle.show_items.specs.Sheets.{AddsGroups, GroupsBegun};
ghost use Rattle.show_items.specs.Stops.{HasStop};
ghost use Rattle.show_items.specs.Tables.{IsTable, IsTableFault, fixed_group, groups_behind, instruction_group, instruction_groups, is_refused, source_group, source_groups, table_groups, table_of};

use crate::faults::fault_in;
use crate::groups::Group;
use crate::pages::{Pages, Stop};
use crate::refusals::{add_refusals, has_refusal};
use crate::sheet::{Form, Item, Sheet};
use field_lines::{
    Layout, bert_fields, erst_entry, erst_header, hest_header, source_layout, table_header,
};
use item_parts::Item as Decoded;
use show_findings::{Fault, Source, add_table, instruction_at, seen_at, seen_u32, source_at};
use std::alloc::AllocError;

// The bytes of a header, and of the fixed parts of an ERST, a HEST and a BERT.
const HEADER: usize = 36;

const ERST: usize = 48;

const HEST: usize = 40;

const BERT: usize = 48;

/// Shows a table, which begins at a place of its file.
pub(crate) fn show_table<P: Pages>(
    sheet: &mut Sheet<'_>,
    pages: &mut P,
    at: Option<u64>,
    bytes: &[u8],
) -> Result<(), Stop>
    ensures shown { OnOk result (ShowsOne (IsTable at bytes.now)
        (P.written pages.old) (P.written pages.new) sheet.old sheet.new) }
    ensures cause { HasStop (P.failures pages.old) (P.failures pages.new) result }
    ensures stopped { IfStopped result (StopsOne (IsTable at bytes.now)
        (P.written pages.old) (P.written pages.new) sheet.old) }
{
    let item = Item {
        kind: "table",
        at,
        bytes,
    };
    let refused = is_refused(bytes);
    let sentence = table_sentence(sheet, bytes, refused)?;
    let fault = table_fault(sheet, bytes)?;
    sheet.begin(&item, sentence.as_str())?;
    add_groups(sheet, pages, bytes)?;
    sheet.end_with(&fault, is_bad(refused, &fault))?;
    sheet.turn(pages)
}

// Whether Linux refuses something of a table.
fn is_refused(bytes: &[u8]) -> bool
    ensures { result ≡ is_refused bytes.now }
{
    has_refusal(table_of(bytes), bytes)
}

fn is_bad(refused: bool, fault: &Option<Fault>) -> bool
    ensures { result ≡ (refused || is_some fault.now) }
{
    refused || fault.is_some()
}

// The sentence of a table.
fn table_sentence(sheet: &Sheet<'_>, bytes: &[u8], refused: bool) -> Result<String, AllocError> {
    let mut sentence = String::new(sheet.alloc());
    add_table(&mut sentence, bytes)?;
    if refused {
        sentence.push_str("; Linux does not take all of it")?;
    }
    Ok(sentence)
}

fn table_fault(sheet: &Sheet<'_>, bytes: &[u8]) -> Result<Option<Fault>, AllocError>
    ensures { IfOk result (IsTableFault (table_of bytes.now) bytes.now) }
{
    match table_of(bytes) {
        Some(table) => fault_in(sheet, table, bytes),
        None => Ok(None),
    }
}

// What a table is by its signature, where its fields are known.
fn table_of(bytes: &[u8]) -> Option<Decoded>
    ensures { result ≡ table_of bytes.now }
{
    if bytes.starts_with(b"ERST") {
        Some(Decoded::Erst)
    } else if bytes.starts_with(b"HEST") {
        Some(Decoded::Hest)
    } else if bytes.starts_with(b"BERT") {
        Some(Decoded::Bert)
    } else {
        None
    }
}

fn add_groups<P: Pages>(sheet: &mut Sheet<'_>, pages: &mut P, bytes: &[u8]) -> Result<(), Stop>
    ensures shown { OnOk result (AddsGroups (table_groups bytes.now)
        (P.written pages.old) (P.written pages.new) sheet.old sheet.new) }
    ensures cause { HasStop (P.failures pages.old) (P.failures pages.new) result }
    ensures stopped { IfStopped result (GroupsBegun (table_groups bytes.now)
        (P.written pages.old) (P.written pages.new) sheet.old) }
{
    if sheet.form() == Form::Brief {
        return Ok(());
    }
    add_fixed(sheet, "header", &table_header(), HEADER, bytes)?;
    add_behind(sheet, pages, bytes)?;
    add_refusals(sheet, pages, table_of(bytes), bytes)
}

// What stands behind the header, where the fields of the table are known.
fn add_behind<P: Pages>(sheet: &mut Sheet<'_>, pages: &mut P, bytes: &[u8]) -> Result<(), Stop>
    ensures shown { OnOk result (AddsGroups (groups_behind (table_of bytes.now) bytes.now)
        (P.written pages.old) (P.written pages.new) sheet.old sheet.new) }
    ensures cause { HasStop (P.failures pages.old) (P.failures pages.new) result }
    ensures stopped { IfStopped result (GroupsBegun (groups_behind (table_of bytes.now) bytes.now)
        (P.written pages.old) (P.written pages.new) sheet.old) }
{
    match table_of(bytes) {
        Some(Decoded::Erst) => {
            add_fixed(sheet, "table", &erst_header(), ERST, bytes)?;
            add_instructions(sheet, pages, bytes)
        }
        Some(Decoded::Hest) => {
            add_fixed(sheet, "table", &hest_header(), HEST, bytes)?;
            add_sources(sheet, pages, bytes)
        }
        Some(Decoded::Bert) => Ok(add_fixed(sheet, "table", &bert_fields(), BERT, bytes)?),
        _ => Ok(()),
    }
}

// The fields in so many of the first bytes.
fn add_fixed(
    sheet: &mut Sheet<'_>,
    name: &'static str,
    layout: &Layout,
    size: usize,
    bytes: &[u8],
) -> Result<(), AllocError>
    requires { IsTrue (is_sound_structure (structure_of layout.now)) }
    ensures { OnOk result (AddsGroups (fixed_group name.now (structure_of layout.now) size bytes.now ∷ [])
        (Some []) (Some []) sheet.old sheet.new) }
{
    let group = Group {
        name,
        index: None,
        kind: None,
        base: 0,
    };
    sheet.add_group(&group, layout, seen_at(bytes, 0, size))
}

// The instruction entries, as many as the table counts.
fn add_instructions<P: Pages>(
    sheet: &mut Sheet<'_>,
    pages: &mut P,
    bytes: &[u8],
) -> Result<(), Stop>
    ensures shown { OnOk result (AddsGroups (instruction_groups bytes.now (seen_number bytes.now 44 4) 0)
        (P.written pages.old) (P.written pages.new) sheet.old sheet.new) }
    ensures cause { HasStop (P.failures pages.old) (P.failures pages.new) result }
    ensures stopped { IfStopped result (GroupsBegun (instruction_groups bytes.now (seen_number bytes.now 44 4) 0)
        (P.written pages.old) (P.written pages.new) sheet.old) }
{
    for index in 0..seen_u32(bytes, 44) {
        let Some(entry) = instruction_at(bytes, index) else {
            return Ok(());
        };
        add_instruction(sheet, index, entry)?;
        sheet.turn(pages)?;
    }
    Ok(())
}

fn add_instruction(sheet: &mut Sheet<'_>, index: u32, entry: &[u8]) -> Result<(), AllocError>
    ensures { OnOk result (AddsGroups (instruction_group index entry.now ∷ []) (Some []) (Some []) sheet.old sheet.new) }
{
    let group = Group {
        name: "entry",
        index: Some(u64::from(index)),
        kind: None,
        base: 48 + 32 * u64::from(index),
    };
    sheet.add_group(&group, &erst_entry(), entry)
}

// The error sources, as many as the table counts.
fn add_sources<P: Pages>(sheet: &mut Sheet<'_>, pages: &mut P, bytes: &[u8]) -> Result<(), Stop>
    ensures shown { OnOk result (AddsGroups (source_groups bytes.now (seen_number bytes.now 36 4) 0 40)
        (P.written pages.old) (P.written pages.new) sheet.old sheet.new) }
    ensures cause { HasStop (P.failures pages.old) (P.failures pages.new) result }
    ensures stopped { IfStopped result (GroupsBegun (source_groups bytes.now (seen_number bytes.now 36 4) 0 40)
        (P.written pages.old) (P.written pages.new) sheet.old) }
{
    let mut at = HEST;
    for index in 0..seen_u32(bytes, 36) {
        let Some(source) = source_at(bytes, at) else {
            return Ok(());
        };
        add_source(sheet, index, at, &source)?;
        sheet.turn(pages)?;
        at = source.next;
    }
    Ok(())
}

fn add_source(
    sheet: &mut Sheet<'_>,
    index: u32,
    at: usize,
    source: &Source<'_>,
) -> Result<(), AllocError>
    requires { at + length source.now.bytes.now < 2 ^ 64 }
    ensures { OnOk result (AddsGroups (source_group index at source.now.kind source.now.bytes.now ∷ [])
        (Some []) (Some []) sheet.old sheet.new) }
{
    let group = Group {
        name: "source",
        index: Some(u64::from(index)),
        kind: None,
        base: at as u64,
    };
    match source_layout(source.kind) {
        Some(layout) => sheet.add_group(&group, &layout, source.bytes),
        None => sheet.add_bytes(&group, source.bytes),
    }
}
