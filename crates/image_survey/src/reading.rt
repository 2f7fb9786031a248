// The bytes of a record.
ghost use Rattle.std.specs.Prelude.{◌≡◌, ℕ, ◌-◌, ◌*◌, ◌<◌, ◌++◌, length, take, IfOk, IfSome, OnOk, MatchOption, true};
ghost use Rattle.record_model.specs.Records.{slot_at, is_upright, parts_of, part_len};
ghost use Rattle.record_slots.specs.Slots.{numbers_of};
ghost use Rattle.image_survey.specs.Kinds.{kind_at};
ghost use Rattle.image_survey.specs.Reading.{slot_of_part, IsRecordOf};
ghost use Rattle.image_survey.specs.Shown.{AreShown};

use crate::looks::place_of;
use crate::{SlotKind, SlotView};
use flash_model::Geometry;
use record_slots::{Head, part_len, parts_of};
use std::alloc::{AllocError, Global};

// Where a record's bytes begin in a slot.
const BODY_AT: usize = 32;

/// The bytes of the record whose first slot a slot is; none where it is no first slot.
pub fn record_at(
    alloc: Global,
    image: &[u8],
    geometry: &Geometry,
    views: &[SlotView],
    slot: u32,
) -> Result<Option<Vec<u8>>, AllocError>
    requires sized { length image.now ≡ geometry.now.slot_size * geometry.now.slots }
    requires all { length views.now ≡ geometry.now.slots }
    requires shown { AreShown geometry.now.slot_size geometry.now.slots image.now views.now }
    requires slot { slot < geometry.now.slots }
    ensures bytes { IfOk result (λ found. MatchOption found (kind_at geometry.now.slot_size geometry.now.slots
        image.now slot ≡ SlotKind.First → ⊥) (λ bytes. IsRecordOf geometry.now.slot_size geometry.now.slots image.now
        slot bytes.items)) }
    ensures first { IfOk result (λ found. IfSome found (λ _. kind_at geometry.now.slot_size geometry.now.slots
        image.now slot ≡ SlotKind.First)) }
{
    let view = &views[slot as usize];
    if view.kind != SlotKind::First {
        return Ok(None);
    }
    let bytes = record_bytes(alloc, image, geometry, slot, &view.look.head)?;
    Ok(Some(bytes))
}

// The bytes of the record whose first slot this is.
fn record_bytes(
    alloc: Global,
    image: &[u8],
    geometry: &Geometry,
    slot: u32,
    head: &Head,
) -> Result<Vec<u8>, AllocError>
    requires sized { length image.now ≡ geometry.now.slot_size * geometry.now.slots }
    requires slot { slot < geometry.now.slots }
    requires head { numbers_of head.now ≡ (slot_at geometry.now.slot_size image.now slot).head }
    requires first { kind_at geometry.now.slot_size geometry.now.slots image.now slot ≡ SlotKind.First }
    ensures { IfOk result (λ bytes. IsRecordOf geometry.now.slot_size geometry.now.slots image.now slot bytes.items) }
{
    let mut bytes = Vec::with_capacity(alloc, head.len as usize)?;
    for number in 0..parts_of(geometry, head.len) {
        add_part(&mut bytes, image, geometry, slot, head, number)?;
    }
    Ok(bytes)
}

// Adds the bytes of one more part.
fn add_part(
    bytes: &mut Vec<u8>,
    image: &[u8],
    geometry: &Geometry,
    slot: u32,
    head: &Head,
    number: u32,
) -> Result<(), AllocError>
    requires sized { length image.now ≡ geometry.now.slot_size * geometry.now.slots }
    requires slot { slot < geometry.now.slots }
    requires number { number < parts_of (geometry.now.slot_size - 64) head.now.len }
    requires up { (tail : ℕ) × (is_upright (geometry.now.slot_size - 64) geometry.now.slots (numbers_of head.now) tail
        ≡ true) }
    ensures { OnOk result (bytes.new.items
        ≡ bytes.old.items ++ take (part_len (geometry.now.slot_size - 64) head.now.len number)
        (slot_at geometry.now.slot_size image.now (slot_of_part slot (numbers_of head.now) number)).body) }
{
    let part = part_slot(geometry, slot, head, number);
    let start = place_of(geometry, part) + BODY_AT;
    let len = part_len(geometry, head.len, number) as usize;
    bytes.extend_from_slice(&image[start..start + len])?;
    Ok(())
}

// The slot of a part.
fn part_slot(geometry: &Geometry, slot: u32, head: &Head, number: u32) -> u32
    requires slot { slot < geometry.now.slots }
    requires number { number < parts_of (geometry.now.slot_size - 64) head.now.len }
    requires up { (tail : ℕ) × (is_upright (geometry.now.slot_size - 64) geometry.now.slots (numbers_of head.now) tail
        ≡ true) }
    ensures part { result ≡ slot_of_part slot (numbers_of head.now) number }
    ensures within { result < geometry.now.slots }
{
    if number == 0 {
        slot
    } else {
        u32::from(head.next[number as usize - 1])
    }
}
