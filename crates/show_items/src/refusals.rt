// What Linux will not take of a table.
ghost use Rattle.std.specs.Prelude.{◌≡◌, ◌<◌, ◌^◌, ◌+◌, ◌++◌, [], ◌∷◌, length, OnOk, Some};
ghost use Rattle.show_findings.specs.Places.{seen_number};
ghost use Rattle.show_items.specs.Beginnings.{IfStopped};
ghost use Rattle.show_items.specs.Groups.{head_of};
ghost use Rattle.show_items.specs.Refusals.{entry_refusals, has_any, reason_group, reason_json, reason_lines, refusal_groups, refused_entries, refused_groups, refused_sources, source_refusals};
ghost use Rattle.show_items.specs.Sheets.{AddsGroups, GroupsBegun};
ghost use Rattle.show_items.specs.Stops.{HasStop};

use crate::groups::{Group, add_members, add_place, add_title};
use crate::pages::{Pages, Stop};
use crate::sheet::{Form, Sheet};
use crate::text::{add, add_quoted};
use item_parts::Item as Decoded;
use linux_checks::{Refusal, instruction_refusal, region_refusal, source_refusal};
use show_findings::{Source, instruction_at, seen_u32, source_at};
use std::alloc::AllocError;

// Where the error sources begin.
const SOURCES: usize = 40;

/// Whether Linux refuses something of a table.
pub(crate) fn has_refusal(table: Option<Decoded>, bytes: &[u8]) -> bool
    ensures { result ≡ has_any (refused_groups table bytes.now) }
{
    match table {
        Some(Decoded::Erst) => has_refused_entry(bytes),
        Some(Decoded::Hest) => has_refused_source(bytes),
        Some(Decoded::Bert) => region_refusal(bytes).is_some(),
        _ => false,
    }
}

fn has_refused_entry(bytes: &[u8]) -> bool
    ensures { result ≡ has_any (refused_entries bytes.now (seen_number bytes.now 44 4) 0) }
{
    for index in 0..seen_u32(bytes, 44) {
        let Some(entry) = instruction_at(bytes, index) else {
            return false;
        };
        if instruction_refusal(entry).is_some() {
            return true;
        }
    }
    false
}

fn has_refused_source(bytes: &[u8]) -> bool
    ensures { result ≡ has_any (refused_sources bytes.now (seen_number bytes.now 36 4) 0 40) }
{
    let mut at = SOURCES;
    for index in 0..seen_u32(bytes, 36) {
        let Some(source) = source_at(bytes, at) else {
            return false;
        };
        if source_refusal(source.kind, source.bytes).is_some() {
            return true;
        }
        at = source.next;
    }
    false
}

/// Adds what Linux refuses of a table, and why.
pub(crate) fn add_refusals<P: Pages>(
    sheet: &mut Sheet<'_>,
    pages: &mut P,
    table: Option<Decoded>,
    bytes: &[u8],
) -> Result<(), Stop>
    ensures shown { OnOk result (AddsGroups (refused_groups table bytes.now)
        (P.written pages.old) (P.written pages.new) sheet.old sheet.new) }
    ensures cause { HasStop (P.failures pages.old) (P.failures pages.new) result }
    ensures stopped { IfStopped result (GroupsBegun (refused_groups table bytes.now)
        (P.written pages.old) (P.written pages.new) sheet.old) }
{
    match table {
        Some(Decoded::Erst) => add_refused_entries(sheet, pages, bytes),
        Some(Decoded::Hest) => add_refused_sources(sheet, pages, bytes),
        Some(Decoded::Bert) => Ok(add_refused_region(sheet, bytes)?),
        _ => Ok(()),
    }
}

fn add_refused_entries<P: Pages>(
    sheet: &mut Sheet<'_>,
    pages: &mut P,
    bytes: &[u8],
) -> Result<(), Stop>
    ensures shown { OnOk result (AddsGroups (refused_entries bytes.now (seen_number bytes.now 44 4) 0)
        (P.written pages.old) (P.written pages.new) sheet.old sheet.new) }
    ensures cause { HasStop (P.failures pages.old) (P.failures pages.new) result }
    ensures stopped { IfStopped result (GroupsBegun (refused_entries bytes.now (seen_number bytes.now 44 4) 0)
        (P.written pages.old) (P.written pages.new) sheet.old) }
{
    for index in 0..seen_u32(bytes, 44) {
        let Some(entry) = instruction_at(bytes, index) else {
            return Ok(());
        };
        add_entry_refusal(sheet, index, entry)?;
        sheet.turn(pages)?;
    }
    Ok(())
}

fn add_entry_refusal(sheet: &mut Sheet<'_>, index: u32, entry: &[u8]) -> Result<(), AllocError>
    requires { length entry.now ≡ 32 }
    ensures { OnOk result (AddsGroups (entry_refusals index entry.now) (Some []) (Some []) sheet.old sheet.new) }
{
    let group = Group {
        name: "refused entry",
        index: Some(u64::from(index)),
        kind: None,
        base: 48 + 32 * u64::from(index),
    };
    add_refusal(sheet, &group, instruction_refusal(entry))
}

fn add_refused_sources<P: Pages>(
    sheet: &mut Sheet<'_>,
    pages: &mut P,
    bytes: &[u8],
) -> Result<(), Stop>
    ensures shown { OnOk result (AddsGroups (refused_sources bytes.now (seen_number bytes.now 36 4) 0 40)
        (P.written pages.old) (P.written pages.new) sheet.old sheet.new) }
    ensures cause { HasStop (P.failures pages.old) (P.failures pages.new) result }
    ensures stopped { IfStopped result (GroupsBegun (refused_sources bytes.now (seen_number bytes.now 36 4) 0 40)
        (P.written pages.old) (P.written pages.new) sheet.old) }
{
    let mut at = SOURCES;
    for index in 0..seen_u32(bytes, 36) {
        let Some(source) = source_at(bytes, at) else {
            return Ok(());
        };
        add_source_refusal(sheet, index, at, &source)?;
        sheet.turn(pages)?;
        at = source.next;
    }
    Ok(())
}

fn add_source_refusal(
    sheet: &mut Sheet<'_>,
    index: u32,
    at: usize,
    source: &Source<'_>,
) -> Result<(), AllocError>
    requires { at + 1000 < 2 ^ 64 }
    ensures { OnOk result (AddsGroups (source_refusals index at source.now.kind source.now.bytes.now)
        (Some []) (Some []) sheet.old sheet.new) }
{
    let group = Group {
        name: "refused source",
        index: Some(u64::from(index)),
        kind: None,
        base: at as u64,
    };
    add_refusal(sheet, &group, source_refusal(source.kind, source.bytes))
}

fn add_refused_region(sheet: &mut Sheet<'_>, bytes: &[u8]) -> Result<(), AllocError>
    ensures { OnOk result (AddsGroups (refused_groups (Some Decoded.Bert) bytes.now) (Some []) (Some []) sheet.old sheet.new) }
{
    let group = Group {
        name: "refused region",
        index: None,
        kind: None,
        base: 0,
    };
    add_refusal(sheet, &group, region_refusal(bytes))
}

// Adds a group where something is refused.
fn add_refusal(
    sheet: &mut Sheet<'_>,
    group: &Group,
    refused: Option<Refusal>,
) -> Result<(), AllocError>
    requires { group.now.base + 1000 < 2 ^ 64 }
    ensures { OnOk result (AddsGroups (refusal_groups (head_of group.now) refused) (Some []) (Some []) sheet.old sheet.new) }
{
    let Some(refused) = refused else {
        return Ok(());
    };
    let moved = Group {
        name: group.name,
        index: group.index,
        kind: group.kind,
        base: group.base + u64::from(refused.at),
    };
    sheet.add_reason(&moved, refused.reason.text())
}

impl Sheet<'_> {
    // Adds a group that says why something is refused.
    fn add_reason(&mut self, group: &Group, reason: &str) -> Result<(), AllocError>
        ensures { OnOk result (AddsGroups (reason_group (head_of group.now) reason.now ∷ []) (Some []) (Some []) self.old self.new) }
    {
        match self.form() {
            Form::Brief => Ok(()),
            Form::Text => {
                let places = self.has_places();
                add_reason_line(&mut self.out, places, group, reason)
            }
            Form::Json => {
                self.begin_group()?;
                add_reason_object(&mut self.out, group, reason)
            }
        }
    }
}

fn add_reason_line(
    out: &mut Vec<u8>,
    places: bool,
    group: &Group,
    reason: &str,
) -> Result<(), AllocError>
    ensures { OnOk result (out.new.items ≡ out.old.items ++ reason_lines places (head_of group.now) reason.now) }
{
    add_title(out, group)?;
    add_place(out, places, group.base)?;
    add(out, "by Linux: ")?;
    add(out, reason)?;
    add(out, "\n")
}

fn add_reason_object(out: &mut Vec<u8>, group: &Group, reason: &str) -> Result<(), AllocError>
    ensures { OnOk result (out.new.items ≡ out.old.items ++ reason_json (head_of group.now) reason.now) }
{
    add_members(out, group)?;
    add(out, ",\"by Linux\":")?;
    add_quoted(out, reason)?;
    add(out, "}")
}
