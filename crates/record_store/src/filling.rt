// The change of each step.
ghost use Rattle.std.specs.Prelude.{◌≡◌, ◌<◌, ◌≤◌, ◌+◌, ◌*◌, nat_lt, if◌then◌else◌, ◌-◌, min, take, drop, slice_index, length, OnOk};
ghost use Rattle.base_model.specs.Flash.{AsksChange, IsErased};
ghost use Rattle.record_model.specs.Filling as TheStep;
ghost use Rattle.record_model.specs.Filling.{IsStep, StandsAt, IsBegun, IsWritten, place_of, len_of};
ghost use Rattle.record_slots.specs.Slots.{Fits, numbers_of};
ghost use Rattle.record_slots.specs.Parts.{part_numbers};
ghost use Rattle.flash_model.specs.Layouts.{layout_of};
ghost use Rattle.record_store.specs.Drafts.{IsDraft, target_in, plan_of, step_of};

use crate::{Draft, Step};
use flash_model::{Flash, FlashFailed, Geometry};
use record_slots::{
    FORMAT, GATE_CLOSED, Head, NO_SLOT, NOT_KILLED, PartHead, erase_one, part_len, put_head,
    put_part_head, put_piece, put_tail,
};

/// Makes the change of a step in the slot of a part.
pub(crate) fn fill<F: Flash>(
    flash: &mut F,
    geometry: &Geometry,
    draft: &Draft,
    number: u32,
    step: Step,
    body: &[u8],
) -> Result<(), FlashFailed>
    requires fits { Fits geometry.now (F.state flash.old) }
    requires draft { IsDraft geometry.now draft.now body.now }
    requires number { number < draft.now.parts }
    requires form { IsStep (layout_of geometry.now) (length (target_in geometry.now draft.now body.now number).bytes)
        (step_of step) }
    requires stands { F.tells → StandsAt (layout_of geometry.now) (target_in geometry.now draft.now body.now number)
        (F.state flash.old).told.image (step_of step) }
    ensures written { OnOk result (F.tells
        → IsWritten (layout_of geometry.now) number (target_in geometry.now draft.now body.now number) (step_of step)
        (F.state flash.new).told.image) }
    ensures change { AsksChange F.tells (place_of (layout_of geometry.now) number
        (target_in geometry.now draft.now body.now number) (step_of step))
        (len_of (layout_of geometry.now) (target_in geometry.now draft.now body.now number) (step_of step))
        (F.state flash.old) (F.state flash.new) result }
{
    let slot = u32::from(draft.slots[number as usize]);
    match step {
        Step::EraseFromHead { done } => erase_one(flash, geometry, slot, done),
        Step::EraseFromTail { done } => {
            erase_one(flash, geometry, slot, geometry.per_slot as u32 - 1 - done)
        }
        Step::PutHead => fill_head(flash, geometry, draft, number, body),
        Step::Piece { piece } => fill_piece(flash, geometry, draft, number, piece, body),
        Step::TailMark => put_tail(flash, geometry, slot),
    }
}

fn fill_head<F: Flash>(
    flash: &mut F,
    geometry: &Geometry,
    draft: &Draft,
    number: u32,
    body: &[u8],
) -> Result<(), FlashFailed>
    requires fits { Fits geometry.now (F.state flash.old) }
    requires draft { IsDraft geometry.now draft.now body.now }
    requires number { number < draft.now.parts }
    requires stands { F.tells → IsErased (F.state flash.old).told.image
        ((target_in geometry.now draft.now body.now number).slot * geometry.now.slot_size) geometry.now.slot_size }
    ensures written { OnOk result (F.tells
        → IsWritten (layout_of geometry.now) number (target_in geometry.now draft.now body.now number) TheStep.PutHead
        (F.state flash.new).told.image) }
    ensures change { AsksChange F.tells (place_of (layout_of geometry.now) number
        (target_in geometry.now draft.now body.now number) TheStep.PutHead) 24 (F.state flash.old)
        (F.state flash.new) result }
{
    let slot = u32::from(draft.slots[number as usize]);
    if number == 0 {
        let head = first_head(geometry, draft, body);
        put_head(flash, geometry, slot, &head)
    } else {
        let head = part_head(geometry, draft, number, body);
        put_part_head(flash, geometry, slot, &head)
    }
}

// The head of the first slot, behind a closed gate.
fn first_head(geometry: &Geometry, draft: &Draft, body: &[u8]) -> Head
    requires { IsDraft geometry.now draft.now body.now }
    ensures { numbers_of result ≡ (target_in geometry.now draft.now body.now 0).head }
{
    Head {
        gate: GATE_CLOSED,
        kill: NOT_KILLED,
        format: FORMAT,
        generation: draft.generation,
        id: draft.id.get(),
        len: draft.len,
        next: [named_at(draft, 1), named_at(draft, 2), named_at(draft, 3)],
    }
}

fn named_at(draft: &Draft, at: usize) -> u16
    requires { at < 4 }
    ensures { result ≡ (if nat_lt at draft.now.parts then slice_index draft.now.slots at else 0xFFFF) }
{
    if at < draft.parts as usize {
        draft.slots[at]
    } else {
        NO_SLOT
    }
}

// The head of a further slot.
fn part_head(geometry: &Geometry, draft: &Draft, number: u32, body: &[u8]) -> PartHead
    requires draft { IsDraft geometry.now draft.now body.now }
    requires number { number < draft.now.parts }
    requires further { 0 < number }
    ensures { part_numbers result ≡ (target_in geometry.now draft.now body.now number).head }
{
    PartHead {
        generation: draft.generation,
        id: draft.id.get(),
        len: part_len(geometry, draft.len, number),
        part: number as u16,
        first: draft.slots[0],
    }
}

fn fill_piece<F: Flash>(
    flash: &mut F,
    geometry: &Geometry,
    draft: &Draft,
    number: u32,
    piece: u32,
    body: &[u8],
) -> Result<(), FlashFailed>
    requires fits { Fits geometry.now (F.state flash.old) }
    requires draft { IsDraft geometry.now draft.now body.now }
    requires number { number < draft.now.parts }
    requires form { 256 * piece < length (target_in geometry.now draft.now body.now number).bytes }
    requires stands { F.tells → IsBegun geometry.now.slot_size (target_in geometry.now draft.now body.now number)
        (256 * piece) (F.state flash.old).told.image }
    ensures written { OnOk result (F.tells
        → IsWritten (layout_of geometry.now) number (target_in geometry.now draft.now body.now number)
        (TheStep.Piece piece) (F.state flash.new).told.image) }
    ensures change { AsksChange F.tells (place_of (layout_of geometry.now) number
        (target_in geometry.now draft.now body.now number) (TheStep.Piece piece))
        (len_of (layout_of geometry.now) (target_in geometry.now draft.now body.now number) (TheStep.Piece piece))
        (F.state flash.old) (F.state flash.new) result }
{
    let slot = u32::from(draft.slots[number as usize]);
    let bytes = piece_of(geometry, draft, number, piece, body);
    put_piece(flash, geometry, slot, piece, bytes)
}

// The bytes of a piece of a part.
fn piece_of<'a>(
    geometry: &Geometry,
    draft: &Draft,
    number: u32,
    piece: u32,
    body: &'a [u8],
) -> &'a [u8]
    requires draft { IsDraft geometry.now draft.now body.now }
    requires number { number < draft.now.parts }
    requires form { 256 * piece < length (target_in geometry.now draft.now body.now number).bytes }
    ensures bytes { result.now ≡ take (min 256
        (length (target_in geometry.now draft.now body.now number).bytes - 256 * piece))
        (drop (256 * piece) (target_in geometry.now draft.now body.now number).bytes) }
    ensures len { length result.now ≡ min 256
        (length (target_in geometry.now draft.now body.now number).bytes - 256 * piece) }
{
    let room = geometry.room() as usize;
    let len = part_len(geometry, draft.len, number) as usize;
    let start = number as usize * room + 256 * piece as usize;
    let count = at_most(len - 256 * piece as usize);
    &body[start..start + count]
}

fn at_most(left: usize) -> usize
    ensures { result ≡ min 256 left }
{
    if left < 256 { left } else { 256 }
}
