// The opening of a flash: all memory of a store, and a look at each slot.
ghost use Rattle.std.specs.Prelude.{◌≡◌, ◌+◌, ◌*◌, ◌≤◌, ◌-◌, length, OnOk, IfOk, IfErr, MatchResult};
ghost use Rattle.base_model.specs.Flash.{LosesOnlyByChange, StaysPowered, raised};
ghost use Rattle.base_model.specs.Layout.{reach_of};
ghost use Rattle.flash_model.specs.Layouts.{layout_of};
ghost use Rattle.record_slots.specs.Slots.{Fits};
ghost use Rattle.record_slots.specs.Answers.{IsOneFault};
ghost use Rattle.record_slots.specs.Recovered.{KillsBelow};
ghost use Rattle.record_store.specs.Answers.{RefusesFlash};
ghost use Rattle.record_store.specs.Index.{IsListing};
ghost use Rattle.record_store.specs.Kept.{KnowsSlots};
ghost use Rattle.record_store.specs.Store.{KeepsRecordsOf};
ghost use Rattle.record_model.specs.Records.{second_copies};

use flash_model::{Flash, Geometry};
use record_slots::{Found, ScanError, scan};
use std::alloc::Global;

/// The lists of a flash of the geometry's size, and memory for a record.
pub fn open<F: Flash>(
    alloc: Global,
    flash: &mut F,
    geometry: &Geometry,
) -> Result<(Found, Vec<u8>), ScanError>
    requires fits { Fits geometry.now (F.state flash.old) }
    ensures answer { MatchResult result (λ _. (F.state flash.new).faults ≡ (F.state flash.old).faults)
        (λ error. RefusesFlash geometry.now (F.state flash.old) (F.state flash.new) error) }
    ensures listing { IfOk result (λ opened. IsListing geometry.now.slots geometry.now.slot_size opened.0) }
    ensures room { IfOk result (λ opened. length opened.1.items ≡ reach_of (geometry.now.slot_size - 64)) }
    ensures knows { IfOk result (λ opened. F.tells → KnowsSlots (layout_of geometry.now)
        (F.state flash.new).told.image opened.0) }
    ensures kept { F.tells → KeepsRecordsOf geometry.now (F.state flash.old) (F.state flash.new) }
    ensures steps { IfOk result (λ _. F.tells
        → (F.state flash.new).steps ≡ (F.state flash.old).steps + second_copies geometry.now.slot_size
        geometry.now.slots (F.state flash.old).told.image) }
    ensures at_most { F.tells → (F.state flash.new).steps
        ≤ (F.state flash.old).steps + second_copies geometry.now.slot_size geometry.now.slots
        (F.state flash.old).told.image }
    ensures order { F.tells → KillsBelow geometry.now.slot_size (F.state flash.old).told geometry.now.slots
        (F.state flash.new).told }
    ensures reads { OnOk result ((F.state flash.new).reads ≡ raised (2 * geometry.now.slots)
        (F.state flash.old).reads) }
    ensures power { LosesOnlyByChange (F.state flash.old) (F.state flash.new) }
    ensures lit { StaysPowered (F.state flash.old) (F.state flash.new) }
    ensures once { IfErr result (IsOneFault (F.state flash.old) (F.state flash.new)) }
    ensures size { (F.state flash.new).size ≡ (F.state flash.old).size }
    ensures sector_size { (F.state flash.new).sector_size ≡ (F.state flash.old).sector_size }
{
    let buffer = vec![in alloc; 0; geometry.reach() as usize]?;
    let found = scan(alloc, flash, geometry)?;
    Ok((found, buffer))
}
