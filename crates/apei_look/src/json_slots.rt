// The slots as JSON.
ghost use Rattle.std.specs.Prelude.{◌≡◌, ◌++◌, ◌<◌, OnOk, string_bytes};
ghost use Rattle.record_slots.specs.Slots.{numbers_of};
ghost use Rattle.apei_look.specs.FileObjects.{look_json, marks_json, next_json, seen_json, slot_item, slot_object, slots_json};
ghost use Rattle.apei_look.specs.SlotTexts.{of_slots};
ghost use Rattle.apei_look.specs.Texts.{identity_json};

use crate::image::Image;
use crate::json::add_separator;
use crate::kind::word;
use image_survey::{Look, SlotKind, SlotView};
use record_slots::Head;
use std::alloc::AllocError;

/// An object for each slot.
pub(crate) fn add_slots(out: &mut String, image: &Image<'_>) -> Result<(), AllocError>
    ensures { OnOk result (string_bytes out.new ≡ string_bytes out.old
        ++ slots_json image.now.is_medium image.now.geometry.now image.now.bytes.now) }
{
    out.push_str(",\"slots\":[")?;
    add_items(out, image)?;
    out.push(']')
}

fn add_items(out: &mut String, image: &Image<'_>) -> Result<(), AllocError>
    ensures { OnOk result (string_bytes out.new ≡ string_bytes out.old
        ++ of_slots (slot_item image.now.is_medium image.now.geometry.now image.now.bytes.now) image.now.geometry.now.slots) }
{
    for slot in 0..image.geometry.slots as u32 {
        add_item(out, image, slot)?;
    }
    Ok(())
}

// The object of a slot, behind a comma where it is not the first.
fn add_item(out: &mut String, image: &Image<'_>, slot: u32) -> Result<(), AllocError>
    requires { slot < image.now.geometry.now.slots }
    ensures { OnOk result (string_bytes out.new ≡ string_bytes out.old
        ++ slot_item image.now.is_medium image.now.geometry.now image.now.bytes.now slot) }
{
    add_separator(out, slot == 0)?;
    add_slot(out, image.place_of(slot), image.view(slot))
}

// The kind of a slot and the byte of the file at which it begins, and its head and its tail mark where it is not erased.
fn add_slot(out: &mut String, at: u64, view: &SlotView) -> Result<(), AllocError>
    ensures { OnOk result (string_bytes out.new ≡ string_bytes out.old
        ++ slot_object at view.now.kind (numbers_of view.now.look.head) view.now.look.tail) }
{
    let kind = word(view.kind);
    write!(out, "{{\"kind\":\"{kind}\",\"at\":{at}")?;
    add_seen(out, view)?;
    out.push('}')
}

fn add_seen(out: &mut String, view: &SlotView) -> Result<(), AllocError>
    ensures { OnOk result (string_bytes out.new ≡ string_bytes out.old
        ++ seen_json view.now.kind (numbers_of view.now.look.head) view.now.look.tail) }
{
    if view.kind == SlotKind::Erased {
        return Ok(());
    }
    add_look(out, &view.look)
}

// What was seen of a slot.
fn add_look(out: &mut String, look: &Look) -> Result<(), AllocError>
    ensures { OnOk result (string_bytes out.new ≡ string_bytes out.old
        ++ look_json (numbers_of look.now.head) look.now.tail) }
{
    add_marks(out, &look.head, look.tail)?;
    add_identity(out, &look.head)?;
    add_next(out, &look.head)
}

fn add_marks(out: &mut String, head: &Head, tail: u8) -> Result<(), AllocError>
    ensures { OnOk result (string_bytes out.new ≡ string_bytes out.old ++ marks_json (numbers_of head.now) tail) }
{
    let Head {
        gate,
        kill,
        format,
        ..
    } = *head;
    write!(out, ",\"gate\":{gate},\"kill\":{kill}")?;
    write!(out, ",\"tail\":{tail},\"format\":{format},")
}

/// The record that a head names.
pub(crate) fn add_identity(out: &mut String, head: &Head) -> Result<(), AllocError>
    ensures { OnOk result (string_bytes out.new ≡ string_bytes out.old ++ identity_json (numbers_of head.now)) }
{
    let Head {
        id,
        generation,
        len,
        ..
    } = *head;
    write!(
        out,
        "\"id\":\"{id}\",\"generation\":{generation},\"bytes\":{len}"
    )
}

fn add_next(out: &mut String, head: &Head) -> Result<(), AllocError>
    ensures { OnOk result (string_bytes out.new ≡ string_bytes out.old ++ next_json (numbers_of head.now)) }
{
    let [one, two, three] = head.next;
    write!(out, ",\"next\":[{one},{two},{three}]")
}
