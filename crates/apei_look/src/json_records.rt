// The records as JSON.
ghost use Rattle.std.specs.Prelude.{◌≡◌, ◌++◌, ◌<◌, option_map, IfOk, OnOk, string_bytes};
ghost use Rattle.record_slots.specs.Slots.{numbers_of};
ghost use Rattle.image_survey.specs.Kinds.{kind_at};
ghost use Rattle.cper_frame.specs.Sections.{value_of};
ghost use Rattle.apei_look.specs.RecordObjects.{AreObjects, IsFrameJson, IsSlotObject, calendar_json, frame_json, guid_json, guids_json, head_json};
ghost use Rattle.apei_look.specs.RecordObjects.{is_first_behind, name_json, notified_json, section_item, section_json, sections_json, severity_json};
ghost use Rattle.apei_look.specs.RecordObjects.{stamp_json, stored_json, time_json, type_json};
ghost use Rattle.apei_look.specs.Texts.{GrowsBy};

use crate::digits::add_bytes;
use crate::guid::add_guid;
use crate::image::{Image, further_slots};
use crate::json::add_separator;
use crate::json_slots::add_identity;
use crate::records::add_slot_numbers;
use crate::time::{RecordTime, time_of};
use apei_bytes::Guid;
use cper_frame::{Record, RecordHead, Section, notification_name, section_name, severity_name};
use flash_model::Geometry;
use jiff::civil::DateTime;
use record_slots::Head;
use std::alloc::{AllocError, Global};

/// An object for each record that a boot finds, in the order of their first slots.
pub(crate) fn add_records(
    alloc: Global,
    out: &mut String,
    image: &Image<'_>,
) -> Result<(), AllocError>
    ensures { OnOk result (GrowsBy (AreObjects image.now.geometry.now.slot_size image.now.geometry.now.slots
        image.now.bytes.now image.now.geometry.now.slots) (string_bytes out.old) (string_bytes out.new)) }
{
    let mut is_first = true;
    for slot in 0..image.geometry.slots as u32 {
        is_first = add_record(alloc, out, image, slot, is_first)?;
    }
    Ok(())
}

// Adds the record whose first slot a slot is, and says whether the next one is the first of the list.
fn add_record(
    alloc: Global,
    out: &mut String,
    image: &Image<'_>,
    slot: u32,
    is_first: bool,
) -> Result<bool, AllocError>
    requires { slot < image.now.geometry.now.slots }
    ensures object { OnOk result (GrowsBy (IsSlotObject image.now.geometry.now.slot_size image.now.geometry.now.slots
        image.now.bytes.now slot (kind_at image.now.geometry.now.slot_size image.now.geometry.now.slots
        image.now.bytes.now slot) is_first) (string_bytes out.old) (string_bytes out.new)) }
    ensures next { IfOk result (λ next. next ≡ is_first_behind (kind_at image.now.geometry.now.slot_size
        image.now.geometry.now.slots image.now.bytes.now slot) is_first) }
{
    let Some((head, bytes)) = image.record_at(alloc, slot)? else {
        return Ok(is_first);
    };
    add_separator(out, is_first)?;
    add_stored(out, image.geometry, slot, &head)?;
    add_frame(out, &bytes)?;
    out.push('}')?;
    Ok(false)
}

// What the store says of a record.
fn add_stored(
    out: &mut String,
    geometry: &Geometry,
    slot: u32,
    head: &Head,
) -> Result<(), AllocError>
    ensures { OnOk result (string_bytes out.new ≡ string_bytes out.old
        ++ stored_json geometry.now.slot_size slot (numbers_of head.now)) }
{
    out.push('{')?;
    add_identity(out, head)?;
    write!(out, ",\"slots\":[{slot}")?;
    add_slot_numbers(out, ',', further_slots(geometry, head))?;
    out.push_str("],\"frame\":")
}

// What its bytes say, `null` where they are no error record.
fn add_frame(out: &mut String, bytes: &[u8]) -> Result<(), AllocError>
    ensures { OnOk result (GrowsBy (IsFrameJson bytes.now) (string_bytes out.old) (string_bytes out.new)) }
{
    match Record::decode(bytes) {
        Ok((frame, _)) => {
            let head = frame.head();
            add_decoded(out, &frame, &head, &time_of(&head))?;
            Ok(())
        }
        Err(_) => out.push_str("null"),
    }
}

// An error record whose header and whose time these are.
fn add_decoded(
    out: &mut String,
    frame: &Record<'_>,
    head: &RecordHead,
    time: &RecordTime,
) -> Result<(), AllocError>
    ensures { OnOk result (string_bytes out.new ≡ string_bytes out.old
        ++ frame_json head.now time.now frame.now.sections) }
{
    add_head(out, head, time)?;
    out.push_str(",\"sections\":[")?;
    add_sections(out, frame)?;
    out.push_str("]}")
}

fn add_sections(out: &mut String, frame: &Record<'_>) -> Result<(), AllocError>
    ensures { OnOk result (string_bytes out.new ≡ string_bytes out.old ++ sections_json 0 frame.now.sections) }
{
    for index in 0..frame.sections() {
        add_item(out, index, &frame.section(index))?;
    }
    Ok(())
}

// The descriptor of a section, behind a comma where it is not the first.
fn add_item(out: &mut String, index: u16, section: &Section<'_>) -> Result<(), AllocError>
    ensures { OnOk result (string_bytes out.new ≡ string_bytes out.old
        ++ section_item index (value_of section.now)) }
{
    add_separator(out, index == 0)?;
    add_section(out, section)
}

// What its header says, whose time is this.
fn add_head(out: &mut String, head: &RecordHead, time: &RecordTime) -> Result<(), AllocError>
    ensures { OnOk result (string_bytes out.new ≡ string_bytes out.old ++ head_json head.now time.now) }
{
    add_severity(out, head.severity)?;
    add_time(out, time)?;
    add_guids(out, head)?;
    add_notified(out, head)
}

fn add_severity(out: &mut String, severity: u32) -> Result<(), AllocError>
    ensures { OnOk result (string_bytes out.new ≡ string_bytes out.old ++ severity_json severity) }
{
    write!(out, "{{\"severity\":{severity},\"severity_name\":")?;
    add_name(out, severity_name(severity))
}

// The GUIDs of who wrote it and of what it was notified by.
fn add_guids(out: &mut String, head: &RecordHead) -> Result<(), AllocError>
    ensures { OnOk result (string_bytes out.new ≡ string_bytes out.old ++ guids_json head.now) }
{
    add_labelled_guid(out, ",\"creator\":\"", &head.creator)?;
    add_labelled_guid(out, ",\"notification\":\"", &head.notification)
}

fn add_labelled_guid(out: &mut String, label: &str, guid: &Guid) -> Result<(), AllocError>
    ensures { OnOk result (string_bytes out.new ≡ string_bytes out.old ++ guid_json label.now guid.now) }
{
    out.push_str(label)?;
    add_guid(out, guid)?;
    out.push('"')
}

fn add_notified(out: &mut String, head: &RecordHead) -> Result<(), AllocError>
    ensures { OnOk result (string_bytes out.new ≡ string_bytes out.old ++ notified_json head.now) }
{
    out.push_str(",\"notification_name\":")?;
    add_name(out, notification_name(&head.notification))
}

// A time as text, or as bytes where it is none of the calendar.
fn add_time(out: &mut String, time: &RecordTime) -> Result<(), AllocError>
    ensures { OnOk result (string_bytes out.new ≡ string_bytes out.old ++ time_json time.now) }
{
    match time {
        RecordTime::Missing => {
            out.push_str(",\"time\":null,\"precise\":false,\"time_bytes\":null")
        }
        RecordTime::Calendar { time, is_precise } => { add_calendar(out, time, *is_precise) }
        RecordTime::Bytes(stamp) => add_stamp(out, *stamp),
    }
}

fn add_calendar(out: &mut String, time: &DateTime, is_precise: bool) -> Result<(), AllocError>
    ensures { OnOk result (string_bytes out.new ≡ string_bytes out.old ++ calendar_json time.now is_precise) }
{
    write!(
        out,
        ",\"time\":\"{time}\",\"precise\":{is_precise},\"time_bytes\":null"
    )
}

fn add_stamp(out: &mut String, stamp: u64) -> Result<(), AllocError>
    ensures { OnOk result (string_bytes out.new ≡ string_bytes out.old ++ stamp_json stamp) }
{
    out.push_str(",\"time\":null,\"precise\":false,\"time_bytes\":\"")?;
    add_bytes(out, stamp)?;
    out.push_str("\"")?;
    Ok(())
}

// What the descriptor of a section says.
fn add_section(out: &mut String, section: &Section<'_>) -> Result<(), AllocError>
    ensures { OnOk result (string_bytes out.new ≡ string_bytes out.old ++ section_json (value_of section.now)) }
{
    let len = section.body.len();
    let severity = section.head.severity;
    add_type(out, &section.head.kind)?;
    write!(out, ",\"bytes\":{len},\"severity\":{severity}}}")
}

fn add_type(out: &mut String, kind: &Guid) -> Result<(), AllocError>
    ensures { OnOk result (string_bytes out.new ≡ string_bytes out.old ++ type_json kind.now) }
{
    out.push_str("{\"type\":\"")?;
    add_guid(out, kind)?;
    out.push_str("\",\"name\":")?;
    add_name(out, section_name(kind))
}

// A name as a string, or `null`.
fn add_name(out: &mut String, name: Option<&str>) -> Result<(), AllocError>
    ensures { OnOk result (string_bytes out.new ≡ string_bytes out.old
        ++ name_json (option_map (λ name. name.now) name.entry)) }
{
    match name {
        Some(name) => write!(out, "\"{name}\""),
        None => out.push_str("null"),
    }
}
