// What a write begins with: the slots that the record is written into, and the generation that it gets.
ghost use Rattle.std.specs.Prelude.{◌≡◌, ◌≢◌, ℕ, ◌+◌, ◌-◌, ◌*◌, ◌<◌, ◌≤◌, ◌==◌, ◌++◌, length, drop, slice_index, slice_index_or, Option, IfSome, IfOk, IfErr, OnOk, OnErr};
ghost use Rattle.base_model.specs.Layout.{reach_of};
ghost use Rattle.record_model.specs.Records.{Entry, parts_of, tail_at, tail_mark};
ghost use Rattle.record_model.specs.RecordMap.{LAST_GENERATION};
ghost use Rattle.record_slots.specs.Listed.{AreSlots};
ghost use Rattle.record_slots.specs.Slots.{Fits};
ghost use Rattle.record_store.specs.Index.{IsListing, IsListOf, IsPlaceFound};
ghost use Rattle.record_store.specs.Start.{AreMarks, IsOver, IsPlanned, IsRefusedBy, IsLast, ReadsTimes, ReadsToPlan, generation_over, slots_needed};

use crate::Draft;
use crate::errors::StoreError;
use crate::index::place_of;
use flash_model::{Flash, FlashFailed, Geometry};
use record_slots::{Found, RecordId, SlotOf, TAIL_MARK, look, parts_of};

const FIRST_GENERATION: u32 = 1;

/// The most slots that a record is written into.
const MAX_PARTS: usize = 4;

/// The draft of a record of this length in the free slots of least number, and the place of the record that it replaces.
/// The slots are looked at, since what they are erased from first is by their tail marks.
pub fn plan_write<F: Flash>(
    flash: &mut F,
    geometry: &Geometry,
    found: &Found,
    id: RecordId,
    len: u32,
) -> Result<(Draft, Option<SlotOf>), StoreError>
    requires fits { Fits geometry.now (F.state flash.old) }
    requires listing { IsListing geometry.now.slots geometry.now.slot_size found.now }
    requires least { 128 ≤ len }
    requires reach { len ≤ reach_of (geometry.now.slot_size - 64) }
    ensures asked { IfOk result (λ plan. (plan.0.id ≡ id) × (plan.0.len ≡ len)) }
    ensures planned { IfOk result (λ plan. IsPlanned F.tells geometry.now found.now (F.state flash.old).told.image
        plan.0 plan.1) }
    ensures refused { IfErr result (IsRefusedBy geometry.now found.now id len) }
    ensures reads { ReadsToPlan F.tells (2 * parts_of (geometry.now.slot_size - 64) len) (F.state flash.old)
        (F.state flash.new) result }
{
    let replaced = place_of(found, id);
    let generation = next_generation(id, replaced)?;
    let parts = parts_of(geometry, len);
    check_free(found, geometry, parts, replaced)?;
    let slots = first_free(found, geometry, parts);
    let marked = look_at_marks(flash, geometry, &slots, parts)?;
    let draft = Draft {
        id,
        generation,
        len,
        parts,
        slots,
        marked,
    };
    Ok((draft, replaced))
}

// The generation of a record that takes the place of the one at this place.
fn next_generation(id: RecordId, replaced: Option<SlotOf>) -> Result<u32, StoreError>
    ensures next { IfOk result (λ generation. generation ≡ generation_over replaced) }
    ensures not_last { OnOk result (IfSome replaced (λ place. place.generation ≢ LAST_GENERATION)) }
    ensures last { IfErr result (λ error. (error ≡ StoreError.LastGeneration id) × IsLast replaced) }
{
    match replaced {
        Some(place) if place.generation == u32::MAX => {
            Err(StoreError::LastGeneration { id: id.get() })
        }
        Some(place) => Ok(place.generation + 1),
        None => Ok(FIRST_GENERATION),
    }
}

// Whether enough slots are free. A new identifier leaves one free for the replacements to come.
fn check_free(
    found: &Found,
    geometry: &Geometry,
    parts: u32,
    replaced: Option<SlotOf>,
) -> Result<(), StoreError>
    requires listing { IsListing geometry.now.slots geometry.now.slot_size found.now }
    requires few { parts ≤ 4 }
    ensures enough { OnOk result (slots_needed parts replaced ≤ length found.now.free.items) }
    ensures too_few { IfErr result (λ error. (error ≡ StoreError.NoSpace (length found.now.free.items))
        × (length found.now.free.items < slots_needed parts replaced)) }
{
    let free = found.free.len() as u64;
    let needed = needed_slots(parts, replaced);
    if free < u64::from(needed) {
        return Err(StoreError::NoSpace { free });
    }
    Ok(())
}

fn needed_slots(parts: u32, replaced: Option<SlotOf>) -> u32
    requires { parts ≤ 4 }
    ensures { result ≡ slots_needed parts replaced }
{
    match replaced {
        Some(_) => parts,
        None => parts + 1,
    }
}

// The free slots of least number.
fn first_free(found: &Found, geometry: &Geometry, parts: u32) -> [u16; MAX_PARTS]
    requires listing { IsListing geometry.now.slots geometry.now.slot_size found.now }
    requires few { parts ≤ 4 }
    requires enough { parts ≤ length found.now.free.items }
    ensures { (i : ℕ) → i < parts → slice_index result i ≡ slice_index found.now.free.items i }
{
    let mut slots = [0; MAX_PARTS];
    for at in 0..parts as usize {
        slots[at] = found.free[at] as u16;
    }
    slots
}

// Which of the first slots of these have their tail mark.
fn look_at_marks<F: Flash>(
    flash: &mut F,
    geometry: &Geometry,
    slots: &[u16; MAX_PARTS],
    parts: u32,
) -> Result<[bool; MAX_PARTS], FlashFailed>
    requires fits { Fits geometry.now (F.state flash.old) }
    requires some { 1 ≤ parts }
    requires few { parts ≤ 4 }
    requires below { (i : ℕ) → i < parts → slice_index slots.now i < geometry.now.slots }
    ensures marks { IfOk result (λ marks. F.tells
        → AreMarks geometry.now.slot_size (F.state flash.old).told.image parts slots.now marks) }
    ensures stays { ReadsTimes F.tells (2 * parts) (F.state flash.old) (F.state flash.new) result }
{
    let mut marked = [false; MAX_PARTS];
    for at in 0..parts as usize {
        marked[at] = has_mark(flash, geometry, u32::from(slots[at]))?;
    }
    Ok(marked)
}

fn has_mark<F: Flash>(flash: &mut F, geometry: &Geometry, slot: u32) -> Result<bool, FlashFailed>
    requires fits { Fits geometry.now (F.state flash.old) }
    requires within { slot < geometry.now.slots }
    ensures mark { IfOk result (λ mark. F.tells
        → mark ≡ (tail_at (F.state flash.old).told.image (slot * geometry.now.slot_size) geometry.now.slot_size ==
        tail_mark)) }
    ensures stays { ReadsTimes F.tells 2 (F.state flash.old) (F.state flash.new) result }
{
    let (_, tail) = look(flash, geometry, slot)?;
    Ok(tail == TAIL_MARK)
}

/// Copies bytes to the start of a buffer.
pub fn put_front(buffer: &mut [u8], bytes: &[u8])
    requires { length bytes.now ≤ length buffer.old }
    ensures { buffer.new ≡ bytes.now ++ drop (length bytes.now) buffer.old }
{
    let len = bytes.len();
    buffer[..len].copy_from_slice(bytes);
}
