// A line for each slot.
ghost use Rattle.std.specs.Prelude.{◌≡◌, ◌++◌, ◌<◌, OnOk, string_bytes};
ghost use Rattle.record_slots.specs.Slots.{numbers_of};
ghost use Rattle.apei_look.specs.SlotTexts.{filling_text, first_text, further_text, gate_text, kind_line, line_text, marks_text, part_text, seen_text};
ghost use Rattle.apei_look.specs.SlotTexts.{slot_line, slots_text};

use crate::digits::add_digits;
use crate::image::{Image, further_slots};
use crate::kind::word;
use crate::records::{add_identity, add_slot_numbers};
use flash_model::Geometry;
use image_survey::{SlotKind, SlotView};
use record_slots::{GATE_FURTHER, Head};
use std::alloc::AllocError;

// The format of a slot whose head is not programmed yet.
const NO_FORMAT: u16 = 0xFFFF;

/// A line for each slot that is not erased: what it is, the identifier, the generation and the length in its head, and the
/// slots that it names.
pub fn add_slots(out: &mut String, image: &Image<'_>) -> Result<(), AllocError>
    ensures { OnOk result (string_bytes out.new ≡ string_bytes out.old
        ++ slots_text image.now.geometry.now.slot_size image.now.geometry.now.slots image.now.bytes.now) }
{
    for slot in 0..image.geometry.slots as u32 {
        add_slot(out, image, slot)?;
    }
    Ok(())
}

fn add_slot(out: &mut String, image: &Image<'_>, slot: u32) -> Result<(), AllocError>
    requires { slot < image.now.geometry.now.slots }
    ensures { OnOk result (string_bytes out.new ≡ string_bytes out.old
        ++ slot_line image.now.geometry.now.slot_size image.now.geometry.now.slots image.now.bytes.now slot) }
{
    add_view(out, image.geometry, slot, image.view(slot))
}

fn add_view(
    out: &mut String,
    geometry: &Geometry,
    slot: u32,
    view: &SlotView,
) -> Result<(), AllocError>
    ensures { OnOk result (string_bytes out.new ≡ string_bytes out.old
        ++ kind_line geometry.now.slot_size slot view.now.kind (numbers_of view.now.look.head) view.now.look.tail) }
{
    if view.kind == SlotKind::Erased {
        return Ok(());
    }
    add_line(out, geometry, slot, view)
}

fn add_line(
    out: &mut String,
    geometry: &Geometry,
    slot: u32,
    view: &SlotView,
) -> Result<(), AllocError>
    ensures { OnOk result (string_bytes out.new ≡ string_bytes out.old
        ++ line_text geometry.now.slot_size slot view.now.kind (numbers_of view.now.look.head) view.now.look.tail) }
{
    let kind = word(view.kind);
    write!(out, "slot {slot} {kind}")?;
    add_seen(out, geometry, view)?;
    out.push('\n')
}

// What the head of a slot says.
fn add_seen(out: &mut String, geometry: &Geometry, view: &SlotView) -> Result<(), AllocError>
    ensures { OnOk result (string_bytes out.new ≡ string_bytes out.old
        ++ seen_text geometry.now.slot_size view.now.kind (numbers_of view.now.look.head) view.now.look.tail) }
{
    let head = &view.look.head;
    match view.kind {
        SlotKind::First | SlotKind::SecondCopy | SlotKind::Killed => add_first(out, geometry, head),
        SlotKind::Further | SlotKind::Orphan => add_part(out, head),
        SlotKind::Filling => add_filling(out, geometry, head),
        SlotKind::Unknown => add_marks(out, head, view.look.tail),
        SlotKind::Erased => Ok(()),
    }
}

// The head of a first slot.
fn add_first(out: &mut String, geometry: &Geometry, head: &Head) -> Result<(), AllocError>
    ensures { OnOk result (string_bytes out.new ≡ string_bytes out.old
        ++ first_text geometry.now.slot_size (numbers_of head.now)) }
{
    out.push_str(" id ")?;
    add_identity(out, head)?;
    add_further(out, further_slots(geometry, head))
}

fn add_further(out: &mut String, further: &[u16]) -> Result<(), AllocError>
    ensures { OnOk result (string_bytes out.new ≡ string_bytes out.old ++ further_text further.now) }
{
    match further {
        [] => Ok(()),
        slots => {
            out.push_str(" further")?;
            add_slot_numbers(out, ' ', slots)
        }
    }
}

// The head of a further slot.
fn add_part(out: &mut String, head: &Head) -> Result<(), AllocError>
    ensures { OnOk result (string_bytes out.new ≡ string_bytes out.old ++ part_text (numbers_of head.now)) }
{
    out.push_str(" id ")?;
    add_identity(out, head)?;
    let [part, first, _] = head.next;
    write!(out, " part {part} of slot {first}")
}

// The head of a slot that is being filled or erased, as far as it has one.
fn add_filling(out: &mut String, geometry: &Geometry, head: &Head) -> Result<(), AllocError>
    ensures { OnOk result (string_bytes out.new ≡ string_bytes out.old
        ++ filling_text geometry.now.slot_size (numbers_of head.now)) }
{
    if head.gate == GATE_FURTHER {
        return add_part(out, head);
    }
    if head.format == NO_FORMAT {
        return out.push_str(" no head");
    }
    add_first(out, geometry, head)
}

// The marks of a slot that is of no known form.
fn add_marks(out: &mut String, head: &Head, tail: u8) -> Result<(), AllocError>
    ensures { OnOk result (string_bytes out.new ≡ string_bytes out.old ++ marks_text (numbers_of head.now) tail) }
{
    let format = head.format;
    add_gate(out, head)?;
    write!(out, " format {format} tail 0x")?;
    add_digits(out, tail)
}

fn add_gate(out: &mut String, head: &Head) -> Result<(), AllocError>
    ensures { OnOk result (string_bytes out.new ≡ string_bytes out.old ++ gate_text (numbers_of head.now)) }
{
    out.push_str(" gate 0x")?;
    add_digits(out, head.gate)?;
    out.push_str(" kill 0x")?;
    add_digits(out, head.kill)
}
