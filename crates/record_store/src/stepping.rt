// The next change of what is pending, one a call. After it the lists are those of the slots as they are then.
ghost use Rattle.std.specs.Prelude.{◌≡◌, ℕ, ◌-◌, ◌<◌, ◌≤◌, List, length, IfOk};
ghost use Rattle.base_model.specs.Flash.{AsksChange};
ghost use Rattle.base_model.specs.Layout.{reach_of};
ghost use Rattle.flash_model.specs.Layouts.{layout_of};
ghost use Rattle.record_store.specs.Drafts.{step_of};
ghost use Rattle.record_model.specs.Records.{NearlyOnlyFirstUp};
ghost use Rattle.record_slots.specs.Listed.{IsWithin};
ghost use Rattle.record_slots.specs.Slots.{Fits};
ghost use Rattle.record_store.specs.Index.{IsListing};
ghost use Rattle.record_store.specs.Kept.{IsWork, IsUnderWay, KnowsOldCopy, KnowsCleared, Knows, kept_of, work_after, opened_place};
ghost use Rattle.record_store.specs.Stepping.{MakesChange, leaving};

use crate::index::{copy_killed, record_cleared, record_opened};
use crate::work::Begun;
use crate::{Draft, Stage, Step, prepare, publish};
use flash_model::{Flash, FlashFailed, Geometry};
use record_slots::{Found, RecordId, SlotOf, kill};

/// Makes the next change of what is pending, and leaves what is pending then. The record stands at the start of a buffer.
pub fn make_change<F: Flash>(
    flash: &mut F,
    geometry: &Geometry,
    found: &mut Found,
    buffer: &[u8],
    work: &mut Begun,
) -> Result<(), FlashFailed>
    requires fits { Fits geometry.now (F.state flash.old) }
    requires listing { IsListing geometry.now.slots geometry.now.slot_size found.old }
    requires buffer { length buffer.now ≡ reach_of (geometry.now.slot_size - 64) }
    requires form { IsWork geometry.now found.old buffer.now work.old }
    requires under_way { IsUnderWay work.old }
    requires knows { F.tells → Knows geometry.now found.old buffer.now (F.state flash.old).told.image work.old }
    ensures listing { IsListing geometry.now.slots geometry.now.slot_size found.new }
    ensures makes { MakesChange F.tells (kept_of geometry.now found.new buffer.now) (F.state flash.old)
        (F.state flash.new) work.old (leaving result work.new) }
{
    match work {
        Begun::Nothing => unreachable!(),
        Begun::Write {
            draft,
            stage,
            replaced,
        } => match *stage {
            Stage::Fill { number, step } => fill_slot(
                flash, geometry, found, buffer, draft, number, step, *replaced, stage,
            ),
            Stage::Gate => {
                let next = open_slot(flash, geometry, found, buffer, draft, *replaced)?;
                *work = next;
                Ok(())
            }
        },
        Begun::OldCopy { draft, place } => {
            let next = end_old_copy(flash, geometry, found, draft, *place)?;
            *work = next;
            Ok(())
        }
        Begun::Clear { id, place } => {
            let next = end_record(flash, geometry, found, *id, *place)?;
            *work = next;
            Ok(())
        }
    }
}

// Makes a change before the gate, which no list shows, and leaves the stage behind it.
fn fill_slot<F: Flash>(
    flash: &mut F,
    geometry: &Geometry,
    found: &Found,
    buffer: &[u8],
    draft: &Draft,
    number: u32,
    step: Step,
    replaced: Option<SlotOf>,
    stage: &mut Stage,
) -> Result<(), FlashFailed>
    requires fits { Fits geometry.now (F.state flash.old) }
    requires buffer { length buffer.now ≡ reach_of (geometry.now.slot_size - 64) }
    requires form { IsWork geometry.now found.now buffer.now
        (Begun.Write draft.now (Stage.Fill number step) replaced) }
    requires knows { F.tells → Knows geometry.now found.now buffer.now (F.state flash.old).told.image
        (Begun.Write draft.now (Stage.Fill number step) replaced) }
    ensures makes { MakesChange F.tells (kept_of geometry.now found.now buffer.now) (F.state flash.old)
        (F.state flash.new) (Begun.Write draft.now (Stage.Fill number step) replaced)
        (leaving result (Begun.Write draft.now stage.new replaced)) }
{
    let len = draft.len as usize;
    let next = prepare(flash, geometry, draft, number, step, &buffer[..len])?;
    *stage = next;
    Ok(())
}

// Opens the gate of a first slot, and lists its record.
fn open_slot<F: Flash>(
    flash: &mut F,
    geometry: &Geometry,
    found: &mut Found,
    buffer: &[u8],
    draft: &Draft,
    replaced: Option<SlotOf>,
) -> Result<Begun, FlashFailed>
    requires fits { Fits geometry.now (F.state flash.old) }
    requires listing { IsListing geometry.now.slots geometry.now.slot_size found.old }
    requires buffer { length buffer.now ≡ reach_of (geometry.now.slot_size - 64) }
    requires form { IsWork geometry.now found.old buffer.now (Begun.Write draft.now Stage.Gate replaced) }
    requires knows { F.tells → Knows geometry.now found.old buffer.now (F.state flash.old).told.image
        (Begun.Write draft.now Stage.Gate replaced) }
    ensures listing { IsListing geometry.now.slots geometry.now.slot_size found.new }
    ensures makes { MakesChange F.tells (kept_of geometry.now found.new buffer.now) (F.state flash.old)
        (F.state flash.new) (Begun.Write draft.now Stage.Gate replaced) result }
{
    let len = draft.len as usize;
    publish(flash, geometry, draft, &buffer[..len])?;
    let place = opened_place(*draft);
    record_opened(found, geometry, draft.id, place, draft.parts);
    Ok(after_gate(draft, replaced))
}

// Where the record of a draft is.
fn opened_place(draft: Draft) -> SlotOf
    ensures place { result ≡ opened_place draft }
    ensures four { length draft.slots ≡ 4 }
{
    let [first, one, two, three] = draft.slots;
    SlotOf {
        slot: u32::from(first),
        generation: draft.generation,
        len: draft.len,
        next: [one, two, three],
    }
}

// What is pending once the gate is open: the end of the record that was replaced.
fn after_gate(draft: &Draft, replaced: Option<SlotOf>) -> Begun
    ensures { result ≡ work_after draft.now replaced }
{
    match replaced {
        Some(place) => Begun::OldCopy {
            draft: *draft,
            place,
        },
        None => Begun::Nothing,
    }
}

// Kills the first slot of the record that was replaced, and lists its slots as free.
fn end_old_copy<F: Flash>(
    flash: &mut F,
    geometry: &Geometry,
    found: &mut Found,
    draft: &Draft,
    place: SlotOf,
) -> Result<Begun, FlashFailed>
    requires fits { Fits geometry.now (F.state flash.old) }
    requires listing { IsListing geometry.now.slots geometry.now.slot_size found.old }
    requires place { IsWithin geometry.now.slots geometry.now.slot_size place }
    requires knows { F.tells → KnowsOldCopy geometry.now found.old (F.state flash.old).told.image draft.now place }
    ensures listing { IsListing geometry.now.slots geometry.now.slot_size found.new }
    ensures makes { (buffer : List ℕ) → MakesChange F.tells (kept_of geometry.now found.new buffer)
        (F.state flash.old) (F.state flash.new) (Begun.OldCopy draft.now place) result }
{
    kill(flash, geometry, place.slot)?;
    copy_killed(found, geometry, place);
    Ok(Begun::Nothing)
}

// Kills the first slot of the record of an identifier, and lists its slots as free and the identifier no more.
fn end_record<F: Flash>(
    flash: &mut F,
    geometry: &Geometry,
    found: &mut Found,
    id: RecordId,
    place: SlotOf,
) -> Result<Begun, FlashFailed>
    requires fits { Fits geometry.now (F.state flash.old) }
    requires listing { IsListing geometry.now.slots geometry.now.slot_size found.old }
    requires place { IsWithin geometry.now.slots geometry.now.slot_size place }
    requires knows { F.tells → KnowsCleared geometry.now found.old (F.state flash.old).told.image id place }
    ensures listing { IsListing geometry.now.slots geometry.now.slot_size found.new }
    ensures makes { (buffer : List ℕ) → MakesChange F.tells (kept_of geometry.now found.new buffer)
        (F.state flash.old) (F.state flash.new) (Begun.Clear id place) result }
{
    kill(flash, geometry, place.slot)?;
    record_cleared(found, geometry, id);
    Ok(Begun::Nothing)
}
