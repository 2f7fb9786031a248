// Lines for each record.
ghost use Rattle.std.specs.Prelude.{◌≡◌, ◌++◌, ◌<◌, length, option_map, OnOk, string_bytes, codes};
ghost use Rattle.record_slots.specs.Slots.{numbers_of};
ghost use Rattle.record_model.specs.Records.{slot_at};
ghost use Rattle.image_survey.specs.Kinds.{kind_at};
ghost use Rattle.cper_frame.specs.Sections.{value_of};
ghost use Rattle.apei_look.specs.Texts.{GrowsBy, identity_text, slot_numbers};
ghost use Rattle.apei_look.specs.Frames.{IsFrameText, name_text, severity_text, time_text, guids_text, head_text, kind_text, section_text, sections_text};
ghost use Rattle.apei_look.specs.Records.{AreRecords, IsSlotText, record_line};

use crate::digits::add_bytes;
use crate::guid::add_guid;
use crate::image::{Image, further_slots};
use crate::time::{RecordTime, time_of};
use apei_bytes::Guid;
use cper_frame::{Record, RecordHead, Section, notification_name, section_name, severity_name};
use flash_model::Geometry;
use record_slots::Head;
use std::alloc::{AllocError, Global};

/// Lines for each record that a boot finds, in the order of their first slots: its identifier, its generation, its length and
/// its slots, and behind them what its header and its section descriptors say.
pub fn add_records(alloc: Global, out: &mut String, image: &Image<'_>) -> Result<(), AllocError>
    ensures { OnOk result (GrowsBy (AreRecords image.now.geometry.now.slot_size image.now.geometry.now.slots
        image.now.bytes.now image.now.geometry.now.slots) (string_bytes out.old) (string_bytes out.new)) }
{
    for slot in 0..image.geometry.slots as u32 {
        add_record(alloc, out, image, slot)?;
    }
    Ok(())
}

// The record whose first slot a slot is.
fn add_record(
    alloc: Global,
    out: &mut String,
    image: &Image<'_>,
    slot: u32,
) -> Result<(), AllocError>
    requires { slot < image.now.geometry.now.slots }
    ensures { OnOk result (GrowsBy (IsSlotText image.now.geometry.now.slot_size image.now.geometry.now.slots
        image.now.bytes.now slot (kind_at image.now.geometry.now.slot_size image.now.geometry.now.slots
        image.now.bytes.now slot)) (string_bytes out.old) (string_bytes out.new)) }
{
    let Some((head, bytes)) = image.record_at(alloc, slot)? else {
        return Ok(());
    };
    add_line(out, image.geometry, slot, &head)?;
    add_frame(out, &bytes)?;
    Ok(())
}

// The line of a record, by the head of its first slot.
fn add_line(out: &mut String, geometry: &Geometry, slot: u32, head: &Head) -> Result<(), AllocError>
    ensures { OnOk result (string_bytes out.new ≡ string_bytes out.old
        ++ record_line geometry.now.slot_size slot (numbers_of head.now)) }
{
    out.push_str("\nrecord ")?;
    add_identity(out, head)?;
    write!(out, " slots {slot}")?;
    add_slot_numbers(out, ' ', further_slots(geometry, head))?;
    out.push('\n')
}

/// The record that a head names.
pub fn add_identity(out: &mut String, head: &Head) -> Result<(), AllocError>
    ensures { OnOk result (string_bytes out.new ≡ string_bytes out.old ++ identity_text (numbers_of head.now)) }
{
    let Head {
        id,
        generation,
        len,
        ..
    } = *head;
    write!(out, "{id} generation {generation} bytes {len}")
}

/// Numbers of slots, each behind a mark.
pub fn add_slot_numbers(out: &mut String, mark: char, mut slots: &[u16]) -> Result<(), AllocError>
    ensures { OnOk result (string_bytes out.new ≡ string_bytes out.old ++ slot_numbers mark slots.entry.now) }
{
    while let [slot, rest @ ..] = slots {
        let slot = *slot;
        write!(out, "{mark}{slot}")?;
        slots = rest;
    }
    Ok(())
}

// What its bytes say.
fn add_frame(out: &mut String, bytes: &[u8]) -> Result<(), AllocError>
    ensures { OnOk result (GrowsBy (IsFrameText bytes.now) (string_bytes out.old) (string_bytes out.new)) }
{
    match Record::decode(bytes) {
        Ok((frame, _)) => {
            let head = frame.head();
            add_head(out, &head, &time_of(&head))?;
            add_sections(out, &frame)?;
            Ok(())
        }
        Err(_) => out.push_str("  no error record\n"),
    }
}

fn add_sections(out: &mut String, frame: &Record<'_>) -> Result<(), AllocError>
    ensures { OnOk result (string_bytes out.new ≡ string_bytes out.old ++ sections_text 0 frame.now.sections) }
{
    for index in 0..frame.sections() {
        add_section(out, index, &frame.section(index))?;
    }
    Ok(())
}

// What its header says, whose time is this.
fn add_head(out: &mut String, head: &RecordHead, time: &RecordTime) -> Result<(), AllocError>
    ensures { OnOk result (string_bytes out.new ≡ string_bytes out.old ++ head_text head.now time.now) }
{
    add_severity(out, "  severity ", head.severity)?;
    out.push_str("\n  time ")?;
    add_time(out, time)?;
    add_guids(out, head)
}

// The GUIDs of who wrote it and of what it was notified by.
fn add_guids(out: &mut String, head: &RecordHead) -> Result<(), AllocError>
    ensures { OnOk result (string_bytes out.new ≡ string_bytes out.old ++ guids_text head.now) }
{
    out.push_str("\n  creator ")?;
    add_guid(out, &head.creator)?;
    out.push_str("\n  notification ")?;
    add_guid(out, &head.notification)?;
    add_name(out, notification_name(&head.notification))?;
    out.push('\n')
}

// A time, or the bytes that stand in its place.
fn add_time(out: &mut String, time: &RecordTime) -> Result<(), AllocError>
    ensures { OnOk result (string_bytes out.new ≡ string_bytes out.old ++ time_text time.now) }
{
    match time {
        RecordTime::Missing => out.push_str("none"),
        RecordTime::Calendar { time, is_precise } => {
            write!(out, "{time}")?;
            out.push_str(if *is_precise { "" } else { " or about then" })
        }
        RecordTime::Bytes(stamp) => {
            out.push_str("bytes ")?;
            add_bytes(out, *stamp)
        }
    }
}

// What the descriptor of a section says.
fn add_section(out: &mut String, index: u16, section: &Section<'_>) -> Result<(), AllocError>
    ensures { OnOk result (string_bytes out.new ≡ string_bytes out.old ++ section_text index (value_of section.now)) }
{
    let len = section.body.len();
    add_kind(out, index, &section.head.kind)?;
    write!(out, " bytes {len}")?;
    add_severity(out, " severity ", section.head.severity)?;
    out.push('\n')
}

// The number of a section, and its type.
fn add_kind(out: &mut String, index: u16, kind: &Guid) -> Result<(), AllocError>
    ensures { OnOk result (string_bytes out.new ≡ string_bytes out.old ++ kind_text index kind.now) }
{
    write!(out, "  section {index} ")?;
    add_guid(out, kind)?;
    add_name(out, section_name(kind))
}

// A severity behind a label: its number, and its word where it has one.
fn add_severity(out: &mut String, label: &str, severity: u32) -> Result<(), AllocError>
    ensures { OnOk result (string_bytes out.new ≡ string_bytes out.old ++ label.now ++ severity_text severity) }
{
    write!(out, "{label}{severity}")?;
    add_name(out, severity_name(severity))
}

// The name of what stands before it, where it has one.
fn add_name(out: &mut String, name: Option<&str>) -> Result<(), AllocError>
    ensures { OnOk result (string_bytes out.new ≡ string_bytes out.old
        ++ name_text (option_map (λ name. name.now) name.entry)) }
{
    match name {
        Some(name) => write!(out, " ({name})"),
        None => Ok(()),
    }
}
