// One change of a write before its gate, and what comes next.
ghost use Rattle.std.specs.Prelude.{ℕ, List, ◌≡◌, ◌<◌, ◌≤◌, ◌+◌, ◌*◌, ◌==◌, ◌⊎◌, false, nat_lt, if◌then◌else◌, slice_index, slice_index_or, length, OnOk, IfOk};
ghost use Rattle.std.specs.FinMap.{insert};
ghost use Rattle.base_model.specs.Flash.{AsksChange, Leaves};
ghost use Rattle.flash_model.specs.Layouts.{layout_of};
ghost use Rattle.record_model.specs.Filling as TheStep;
ghost use Rattle.record_model.specs.Filling.{IsStep, place_of, len_of};
ghost use Rattle.record_model.specs.Plan as ThePlan;
ghost use Rattle.record_model.specs.Plan.{KnowsPlan, StandsAtStage, stage_after};
ghost use Rattle.record_model.specs.Records.{stored_in};
ghost use Rattle.record_model.proofs.PlanLemmas.{StaysKnown, Opens};
ghost use Rattle.record_model.proofs.StepLemmas.{first_stage};
ghost use Rattle.record_slots.specs.Slots.{Fits};
ghost use Rattle.record_store.specs.Drafts.{IsDraft, target_in, IsStage, plan_of, step_of, stage_of};

use crate::filling::fill;
use crate::{Draft, Stage, Step};
use flash_model::{Flash, FlashFailed, Geometry};
use record_slots::{open_gate, part_len};

/// Makes the change of a step, and answers the next stage. Power lost in it leaves the records as they were.
pub fn prepare<F: Flash>(
    flash: &mut F,
    geometry: &Geometry,
    draft: &Draft,
    number: u32,
    step: Step,
    body: &[u8],
) -> Result<Stage, FlashFailed>
    requires fits { Fits geometry.now (F.state flash.old) }
    requires draft { IsDraft geometry.now draft.now body.now }
    requires number { number < draft.now.parts }
    requires form { IsStep (layout_of geometry.now) (length (target_in geometry.now draft.now body.now number).bytes)
        (step_of step) }
    requires knows { F.tells → KnowsPlan (layout_of geometry.now) (plan_of draft.now body.now)
        (F.state flash.old).told.image }
    requires stands { F.tells → StandsAtStage (layout_of geometry.now) (plan_of draft.now body.now)
        (F.state flash.old).told.image (ThePlan.Fill number (step_of step)) }
    ensures kept { F.tells → Leaves (F.state flash.old).told (F.state flash.new).told
        (StaysKnown (layout_of geometry.now) (plan_of draft.now body.now) number (F.state flash.old).told.image) }
    ensures form { IfOk result (IsStage geometry.now draft.now body.now) }
    ensures next { IfOk result (λ stage. stage_of stage ≡ stage_after (layout_of geometry.now)
        (plan_of draft.now body.now) number (step_of step)) }
    ensures stands { IfOk result (λ stage. F.tells → StandsAtStage (layout_of geometry.now)
        (plan_of draft.now body.now) (F.state flash.new).told.image (stage_of stage)) }
    ensures change { AsksChange F.tells (place_of (layout_of geometry.now) number
        (target_in geometry.now draft.now body.now number) (step_of step))
        (len_of (layout_of geometry.now) (target_in geometry.now draft.now body.now number) (step_of step))
        (F.state flash.old) (F.state flash.new) result }
{
    fill(flash, geometry, draft, number, step, body)?;
    Ok(next_stage(geometry, draft, number, step, body))
}

fn next_stage(geometry: &Geometry, draft: &Draft, number: u32, step: Step, body: &[u8]) -> Stage
    requires draft { IsDraft geometry.now draft.now body.now }
    requires number { number < draft.now.parts }
    requires form { IsStep (layout_of geometry.now) (length (target_in geometry.now draft.now body.now number).bytes)
        (step_of step) }
    ensures is { stage_of result ≡ stage_after (layout_of geometry.now)
        (plan_of draft.now body.now) number (step_of step) }
    ensures form { IsStage geometry.now draft.now body.now result }
{
    match step {
        Step::EraseFromHead { done } => {
            let next = Step::EraseFromHead { done: done + 1 };
            after_sector(geometry, number, done, next)
        }
        Step::EraseFromTail { done } => {
            let next = Step::EraseFromTail { done: done + 1 };
            after_sector(geometry, number, done, next)
        }
        Step::PutHead => Stage::Fill {
            number,
            step: Step::Piece { piece: 0 },
        },
        Step::Piece { piece } => after_piece(part_len(geometry, draft.len, number), number, piece),
        Step::TailMark => after_last(draft, number),
    }
}

// The stage after a sector of a slot: the next one, or the head.
#[tactic(auto, using(std::proofs::lemmas::Bool::Decides::nat_tests))]
fn after_sector(geometry: &Geometry, number: u32, done: u32, next: Step) -> Stage
    ensures is { stage_of result ≡ (if nat_lt (done + 1) geometry.now.per_slot then ThePlan.Fill number (step_of next)
        else ThePlan.Fill number TheStep.PutHead) }
{
    if u64::from(done) + 1 < geometry.per_slot {
        Stage::Fill { number, step: next }
    } else {
        Stage::Fill {
            number,
            step: Step::PutHead,
        }
    }
}

#[tactic(auto, using(std::proofs::lemmas::Bool::Decides::nat_tests))]
fn after_piece(len: u32, number: u32, piece: u32) -> Stage
    requires { 256 * piece < len }
    ensures is { stage_of result ≡ (if nat_lt (256 * (piece + 1)) len
        then ThePlan.Fill number (TheStep.Piece (piece + 1)) else ThePlan.Fill number TheStep.TailMark) }
{
    if 256 * (u64::from(piece) + 1) < u64::from(len) {
        Stage::Fill {
            number,
            step: Step::Piece { piece: piece + 1 },
        }
    } else {
        Stage::Fill {
            number,
            step: Step::TailMark,
        }
    }
}

/// The first stage of a write.
#[tactic(auto, using(std::proofs::lemmas::Bool::Decides::nat_tests))]
pub fn first_stage(draft: &Draft) -> Stage
    ensures is { (geometry : Geometry) (body : List ℕ) → IsDraft geometry draft.now body
        → stage_of result ≡ first_stage (plan_of draft.now body) }
    ensures form { (geometry : Geometry) (body : List ℕ) → IsDraft geometry draft.now body
        → IsStage geometry draft.now body result }
{
    if draft.parts > 1 {
        Stage::Fill {
            number: 1,
            step: first_step(draft.marked[1]),
        }
    } else {
        Stage::Fill {
            number: 0,
            step: first_step(draft.marked[0]),
        }
    }
}

fn first_step(marked: bool) -> Step
    ensures { step_of result ≡ ThePlan.first_step marked }
{
    if marked {
        Step::EraseFromTail { done: 0 }
    } else {
        Step::EraseFromHead { done: 0 }
    }
}

// The stage after the filling of a part: the next further slot, the first slot, or the gate.
#[tactic(auto, using(std::proofs::lemmas::Bool::Decides::nat_tests))]
fn after_last(draft: &Draft, number: u32) -> Stage
    requires number { number < draft.now.parts }
    requires few { draft.now.parts ≤ 4 }
    ensures is { stage_of result ≡ (if number == 0 then ThePlan.Gate else (if nat_lt (number + 1) draft.now.parts
        then ThePlan.Fill (number + 1) (ThePlan.first_step (slice_index_or draft.now.marked (number + 1) false))
        else ThePlan.Fill 0 (ThePlan.first_step (slice_index_or draft.now.marked 0 false)))) }
{
    if number == 0 {
        return Stage::Gate;
    }
    if number + 1 < draft.parts {
        Stage::Fill {
            number: number + 1,
            step: first_step(draft.marked[number as usize + 1]),
        }
    } else {
        Stage::Fill {
            number: 0,
            step: first_step(draft.marked[0]),
        }
    }
}

/// Opens the gate of the first slot: the one change that adds the record. Power lost in it leaves the records as they were,
/// or with the record.
pub fn publish<F: Flash>(
    flash: &mut F,
    geometry: &Geometry,
    draft: &Draft,
    body: &[u8],
) -> Result<(), FlashFailed>
    requires fits { Fits geometry.now (F.state flash.old) }
    requires draft { IsDraft geometry.now draft.now body.now }
    requires knows { F.tells → KnowsPlan (layout_of geometry.now) (plan_of draft.now body.now)
        (F.state flash.old).told.image }
    requires stands { F.tells → StandsAtStage (layout_of geometry.now) (plan_of draft.now body.now)
        (F.state flash.old).told.image ThePlan.Gate }
    ensures crash { F.tells → Leaves (F.state flash.old).told (F.state flash.new).told
        (λ image. (stored_in geometry.now.slot_size geometry.now.slots image
        ≡ stored_in geometry.now.slot_size geometry.now.slots (F.state flash.old).told.image)
        ⊎ (stored_in geometry.now.slot_size geometry.now.slots image
        ≡ insert (stored_in geometry.now.slot_size geometry.now.slots (F.state flash.old).told.image) draft.now.id
        (body.now, draft.now.generation))) }
    ensures opened { OnOk result (F.tells → Opens (layout_of geometry.now) (plan_of draft.now body.now)
        (F.state flash.old).told.image (F.state flash.new).told.image) }
    ensures change { AsksChange F.tells (slice_index draft.now.slots 0 * geometry.now.slot_size) 1 (F.state flash.old)
        (F.state flash.new) result }
{
    let slot = u32::from(draft.slots[0]);
    open_gate(flash, geometry, slot)
}
