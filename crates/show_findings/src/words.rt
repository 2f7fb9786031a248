// What a sentence says of a section.
ghost use Rattle.std.specs.Prelude.{◌≡◌, ◌==◌, codes, false, map, option_map, OnOk};
ghost use Rattle.apei_bytes.specs.Guid.{guid_text};
ghost use Rattle.cper_frame.specs.Names.{severity_word};
ghost use Rattle.field_lines.specs.Code.{structure_of};
ghost use Rattle.field_lines.specs.Sections.{section_structure};
ghost use Rattle.field_lines.specs.Told.{names_told, number_told};
ghost use Rattle.show_findings.specs.Labels.{has_label};
ghost use Rattle.show_findings.specs.Phrases.{marks_of, phrase_of, place_text};
ghost use Rattle.show_findings.specs.Sentences.{Adds};
ghost use Rattle.show_findings.specs.Words.{address_phrases, behind_comma, cause_phrases, cause_words, check_words, checked_phrases, checked_words, device_phrases, device_words, kind_words, marks_for, or_no_rows, others_words, part_words, place_phrases, place_words, section_words, severity_words, threshold_words, width_for, width_words};

use crate::error_section::ErrorSection;
use crate::labels::{add_label, has_label};
use crate::phrases::{Brackets, Manner, Phrase, add_phrases, add_place};
use crate::subjects::add_subject;
use apei_bytes::Guid;
use cper_frame::severity_name;
use field_lines::{Layout, NamedNumber, number_told, section_layout};
use std::alloc::AllocError;

// The severity of a corrected error (UEFI 2.8, N.2.2), and the flag of a section whose error exceeded a threshold.
const CORRECTED: u32 = 2;

const EXCEEDED: u32 = 8;

// The bit of a machine check's status that says that there is an address.
const HAS_ADDRESS: u64 = 0x400_0000_0000_0000;

macro_rules! phrase {
    ($row:expr, $words:expr, $manner:expr) => {
        Phrase {
            row: $row,
            words: $words,
            manner: $manner,
        }
    };
}

// What was found in a processor, and by a PCI Express device.
const CORRECTED_CAUSES: [Phrase; 2] = [
    phrase!("processor error type", ", ", Manner::Flags),
    phrase!("correctable error status", ", ", Manner::Flags),
];

const CAUSES: [Phrase; 2] = [
    phrase!("processor error type", ", ", Manner::Flags),
    phrase!("uncorrectable error status", ", ", Manner::Flags),
];

const PLACE: [Phrase; 16] = [
    phrase!("processor ID", "processor 0x", Manner::Sixteens),
    phrase!("local APIC ID", "APIC ", Manner::Tens),
    phrase!("MPIDR_EL1", "MPIDR 0x", Manner::Sixteens),
    phrase!("extcpu", "processor ", Manner::Tens),
    phrase!("node", "node ", Manner::Tens),
    phrase!("card", "card ", Manner::Tens),
    phrase!("module", "module ", Manner::Tens),
    phrase!("rank number", "rank ", Manner::Tens),
    phrase!("rank", "rank ", Manner::Tens),
    phrase!("bank", "bank ", Manner::Tens),
    phrase!("bank group", "bank group ", Manner::Tens),
    phrase!("bank address", "bank address ", Manner::Tens),
    phrase!("device", "device ", Manner::Tens),
    phrase!("row", "row ", Manner::Tens),
    phrase!("extended row", "extended row ", Manner::Tens),
    phrase!("column", "column ", Manner::Tens),
];

const ADDRESSES: [Phrase; 3] = [
    phrase!("module handle", ", handle 0x", Manner::Sixteens),
    phrase!("physical address", ", physical 0x", Manner::Sixteens),
    phrase!("target address", ", address 0x", Manner::Sixteens),
];

const DEVICE: [Phrase; 4] = [
    phrase!("segment number", ", device ", Manner::Four),
    phrase!("primary bus number", ":", Manner::Two),
    phrase!("device number", ":", Manner::Two),
    phrase!("function number", ".", Manner::Sixteens),
];

const CHECKED: [Phrase; 1] = [phrase!("addr", ", address 0x", Manner::Sixteens)];

// A type that is not known has no rows.
const NO_ROWS: Layout = Layout {
    valid_at: 0,
    fields: &[],
    parts_at: 0,
    parts: &[],
};

/// Adds what is said of a section: how severe it was, what it is about, what was found and where, and how many sections there are besides.
pub(crate) fn add_section(
    out: &mut String,
    section: &ErrorSection<'_>,
    others: usize,
) -> Result<(), AllocError>
    ensures { OnOk result (Adds (section_words section.now.kind section.now.severity section.now.flags
        section.now.label.now section.now.body.now others) out.old out.new) }
{
    let layout = rows_of(&section.kind);
    add_severity(out, section.severity)?;
    add_kind(out, &layout, section)?;
    add_part(out, &layout, section.label, section.body)?;
    add_threshold(out, section.flags)?;
    add_others(out, others)
}

/// Adds a severity.
pub(crate) fn add_severity(out: &mut String, severity: u32) -> Result<(), AllocError>
    ensures { OnOk result (Adds (severity_words (severity_word severity)) out.old out.new) }
{
    match severity_name(severity) {
        Some(name) => {
            out.push_str(name)?;
            out.push(' ')
        }
        None => Ok(()),
    }
}

fn add_threshold(out: &mut String, flags: u32) -> Result<(), AllocError>
    ensures { OnOk result (Adds (threshold_words flags) out.old out.new) }
{
    if flags / EXCEEDED % 2 == 1 {
        out.push_str(", threshold exceeded")
    } else {
        Ok(())
    }
}

fn add_others(out: &mut String, others: usize) -> Result<(), AllocError>
    ensures { OnOk result (Adds (others_words others) out.old out.new) }
{
    if others == 0 {
        return Ok(());
    }
    out.push_str(", and ")?;
    write!(out, "{others}")?;
    out.push_str(" more")
}

fn rows_of(kind: &Guid) -> Layout
    ensures { structure_of result ≡ or_no_rows (section_structure (guid_text kind.now)) }
{
    match section_layout(kind) {
        Some(layout) => layout,
        None => NO_ROWS,
    }
}

// Adds what a section is about and what was found.
fn add_kind(out: &mut String, layout: &Layout, section: &ErrorSection<'_>) -> Result<(), AllocError>
    ensures { OnOk result (Adds (kind_words (structure_of layout.now) section.now.severity section.now.kind
        section.now.body.now) out.old out.new) }
{
    let width = number_told(layout, "memory error type", section.body);
    add_width(out, &width)?;
    add_subject(out, &section.kind)?;
    add_cause(out, &width)?;
    add_phrases(out, layout, section.body, causes(section.severity))
}

// Adds which part it is, and where.
fn add_part(out: &mut String, layout: &Layout, label: &[u8], body: &[u8]) -> Result<(), AllocError>
    ensures { OnOk result (Adds (part_words (structure_of layout.now) label.now body.now) out.old out.new) }
{
    add_labelled(out, layout, label, body)?;
    add_phrases(out, layout, body, addresses())?;
    add_device(out, layout, body)?;
    add_checked(out, layout, body)
}

fn add_width(out: &mut String, found: &Option<NamedNumber>) -> Result<(), AllocError>
    ensures { OnOk result (Adds (width_words (option_map names_told found.now)) out.old out.new) }
{
    match found {
        Some(named) => out.push_str(width_for(named.number)),
        None => Ok(()),
    }
}

// How many bits or symbols of memory were wrong (UEFI 2.8, N.2.5).
fn width_for(number: u64) -> &'static str
    ensures { result.now ≡ width_for number }
{
    match number {
        2 => "single-bit ",
        3 => "multi-bit ",
        4 => "single-symbol ",
        5 => "multi-symbol ",
        _ => "",
    }
}

// Any other kind of memory error, by its name.
fn add_cause(out: &mut String, found: &Option<NamedNumber>) -> Result<(), AllocError>
    ensures { OnOk result (Adds (cause_words (option_map names_told found.now)) out.old out.new) }
{
    match found {
        Some(named) if named.number > 5 => add_behind_comma(out, named.name()),
        _ => Ok(()),
    }
}

fn add_behind_comma(out: &mut String, name: Option<&'static str>) -> Result<(), AllocError>
    ensures { OnOk result (Adds (behind_comma (option_map (λ name. name.now) name.entry)) out.old out.new) }
{
    match name {
        Some(name) => {
            out.push_str(", ")?;
            out.push_str(name)
        }
        None => Ok(()),
    }
}

fn causes(severity: u32) -> &'static [Phrase]
    ensures { map phrase_of result.now ≡ cause_phrases (severity == 2) }
{
    if severity == CORRECTED {
        &CORRECTED_CAUSES
    } else {
        &CAUSES
    }
}

fn places() -> &'static [Phrase]
    ensures { map phrase_of result.now ≡ place_phrases }
{
    &PLACE
}

fn addresses() -> &'static [Phrase]
    ensures { map phrase_of result.now ≡ address_phrases }
{
    &ADDRESSES
}

fn device() -> &'static [Phrase]
    ensures { map phrase_of result.now ≡ device_phrases }
{
    &DEVICE
}

fn checked() -> &'static [Phrase]
    ensures { map phrase_of result.now ≡ checked_phrases }
{
    &CHECKED
}

// The label of a part, and its place behind it.
fn add_labelled(
    out: &mut String,
    layout: &Layout,
    label: &[u8],
    body: &[u8],
) -> Result<(), AllocError>
    ensures { OnOk result (Adds (place_words (structure_of layout.now) label.now body.now) out.old out.new) }
{
    add_label(out, label)?;
    add_marked(out, layout, label, body)
}

fn add_marked(
    out: &mut String,
    layout: &Layout,
    label: &[u8],
    body: &[u8],
) -> Result<(), AllocError>
    ensures { OnOk result (Adds (place_text (marks_for (has_label label.now)) false (structure_of layout.now) body.now place_phrases) out.old out.new) }
{
    let brackets = brackets_for(has_label(label));
    add_place(out, &brackets, layout, body, places())
}

fn brackets_for(has_label: bool) -> Brackets
    ensures { marks_of result ≡ marks_for has_label }
{
    if has_label {
        Brackets {
            start: " (",
            end: ")",
        }
    } else {
        Brackets {
            start: ", ",
            end: "",
        }
    }
}

// A PCI Express device, as `0000:03:00.0`, where all of its address is there.
fn add_device(out: &mut String, layout: &Layout, body: &[u8]) -> Result<(), AllocError>
    ensures { OnOk result (Adds (device_words (structure_of layout.now) body.now) out.old out.new) }
{
    if number_told(layout, "primary bus number", body).is_none() {
        return Ok(());
    }
    add_phrases(out, layout, body, device())
}

// The address of a machine check, where its status says that there is one.
fn add_checked(out: &mut String, layout: &Layout, body: &[u8]) -> Result<(), AllocError>
    ensures { OnOk result (Adds (checked_words (structure_of layout.now) body.now) out.old out.new) }
{
    match number_told(layout, "status", body) {
        Some(status) if status.number / HAS_ADDRESS % 2 == 1 => {
            add_phrases(out, layout, body, checked())
        }
        _ => Ok(()),
    }
}

/// Adds where a machine check was, by its body alone.
pub(crate) fn add_check(out: &mut String, layout: &Layout, body: &[u8]) -> Result<(), AllocError>
    ensures { OnOk result (Adds (check_words (structure_of layout.now) body.now) out.old out.new) }
{
    add_labelled(out, layout, &[], body)?;
    add_checked(out, layout, body)
}
