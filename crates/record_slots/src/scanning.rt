// A scan of all slots.
ghost use Rattle.std.specs.Prelude.{◌≡◌, ◌*◌, ◌≤◌, true, OnOk, OnErr, IfOk, IfErr, length};
ghost use Rattle.base_model.specs.Flash.{LosesOnlyByChange, StaysPowered, raised};
ghost use Rattle.record_slots.specs.Slots.{Fits};
ghost use Rattle.record_slots.specs.Answers.{IsAnswer, IsOneFault};
ghost use Rattle.record_slots.specs.Listed.{AreSlots, IsIndex};
ghost use Rattle.record_slots.specs.Recovered.{IsRecovered, KeepsRecords, StaysNearly, KillsBelow, ChangesFew, KeepsShape};
ghost use Rattle.record_slots.specs.Rooms.{IsEmpty, HasRoom, SameRoom};
ghost use Rattle.record_slots.specs.declared.scanning.ScanError.TheVariants.{Flash, Memory};

use crate::Found;
use crate::listing::list_records;
use crate::looking::look_at_slots;
use crate::settling::{list_free, settle_slots};
use flash_model::{Flash, FlashFailed, Geometry};
use std::alloc::{AllocError, Global};
use thiserror::Error;

/// Why a scan finds nothing.
#[derive(Clone, Copy, Debug, PartialEq, Eq, Error)]
pub enum ScanError {
    /// The flash has this size and this sector size, in bytes, and not the geometry's.
    #[error("the flash has {found} bytes in sectors of {sector}, and not those of the geometry")]
    Size { found: u64, sector: u64 },
    /// The flash failed.
    #[error("the flash failed")]
    Flash,
    /// There was no memory.
    #[error("out of memory")]
    Memory,
}

impl From<FlashFailed> for ScanError {
    ghost from_gives = { λ _ error. error ≡ Flash };

    fn from(_: FlashFailed) -> Self {
        ScanError::Flash
    }
}

impl From<AllocError> for ScanError {
    ghost from_gives = { λ _ error. error ≡ Memory };

    fn from(_: AllocError) -> Self {
        ScanError::Memory
    }
}

/// Finds the records of a flash by a look at the head and the tail mark of each slot, and kills every upright slot that is
/// not the first slot of its identifier's record, in rising order of slots, by one change each. The record of an identifier is that of the
/// greatest generation, in the lower slot at a tie.
///
/// Power lost on the way, or a flash that fails, leaves the records of the flash as they were, and each slot as it was
/// or free.
pub fn scan<F: Flash>(alloc: Global, flash: &mut F, geometry: &Geometry) -> Result<Found, ScanError>
    ensures answer { IsAnswer geometry.now (F.state flash.old) (F.state flash.new) result }
    ensures recovered { IfOk result (λ found. F.tells → IsRecovered geometry.now.slot_size geometry.now.slots
        (F.state flash.old) (F.state flash.new) found) }
    ensures crash { F.tells → KeepsRecords geometry.now.slot_size geometry.now.slots (F.state flash.old).told
        (F.state flash.new).told }
    ensures nearly { F.tells → StaysNearly geometry.now.slot_size geometry.now.slots (F.state flash.old).told
        (F.state flash.new).told }
    ensures order { F.tells → KillsBelow geometry.now.slot_size (F.state flash.old).told geometry.now.slots
        (F.state flash.new).told }
    ensures changes { F.tells → ChangesFew geometry.now.slot_size geometry.now.slots (F.state flash.old)
        (F.state flash.new) }
    ensures index { IfOk result (λ found. IsIndex geometry.now.slots geometry.now.slot_size found.ids.items
        found.places.items) }
    ensures few { IfOk result (λ found. length found.ids.items ≤ geometry.now.slots) }
    ensures free { IfOk result (λ found. AreSlots geometry.now.slots found.free.items) }
    ensures room { IfOk result (HasRoom geometry.now.slots) }
    ensures size { (F.state flash.new).size ≡ (F.state flash.old).size }
    ensures sector_size { (F.state flash.new).sector_size ≡ (F.state flash.old).sector_size }
    ensures reads { (F.state flash.old).reads ≤ (F.state flash.new).reads }
    ensures counted { OnOk result ((F.state flash.new).reads ≡ raised (2 * geometry.now.slots)
        (F.state flash.old).reads) }
    ensures power { LosesOnlyByChange (F.state flash.old) (F.state flash.new) }
    ensures powered { OnOk result ((F.state flash.new).powered ≡ true) }
    ensures lit { StaysPowered (F.state flash.old) (F.state flash.new) }
    ensures once { IfErr result (IsOneFault (F.state flash.old) (F.state flash.new)) }
{
    let size = flash.size();
    let sector = u64::from(flash.sector_size());
    if size != geometry.size() || sector != geometry.sector {
        return Err(ScanError::Size {
            found: size,
            sector,
        });
    }
    let mut found = Found::with_room(alloc, geometry.slots as usize)?;
    recover(&mut found, flash, geometry)?;
    Ok(found)
}

/// Does what `scan` does in the memory of what an earlier scan found. Where the flash fails, nothing is found.
pub fn rescan<F: Flash>(
    found: &mut Found,
    flash: &mut F,
    geometry: &Geometry,
) -> Result<(), ScanError>
    requires fits { Fits geometry.now (F.state flash.old) }
    requires room { HasRoom geometry.now.slots found.old }
    ensures error { IfErr result (λ error. error ≡ ScanError.Flash) }
    ensures recovered { OnOk result (F.tells → IsRecovered geometry.now.slot_size geometry.now.slots
        (F.state flash.old) (F.state flash.new) found.new) }
    ensures emptied { OnErr result (IsEmpty found.new) }
    ensures crash { F.tells → KeepsRecords geometry.now.slot_size geometry.now.slots (F.state flash.old).told
        (F.state flash.new).told }
    ensures nearly { F.tells → StaysNearly geometry.now.slot_size geometry.now.slots (F.state flash.old).told
        (F.state flash.new).told }
    ensures order { F.tells → KillsBelow geometry.now.slot_size (F.state flash.old).told geometry.now.slots
        (F.state flash.new).told }
    ensures changes { F.tells → ChangesFew geometry.now.slot_size geometry.now.slots (F.state flash.old)
        (F.state flash.new) }
    ensures index { IsIndex geometry.now.slots geometry.now.slot_size found.new.ids.items found.new.places.items }
    ensures few { length found.new.ids.items ≤ geometry.now.slots }
    ensures free { AreSlots geometry.now.slots found.new.free.items }
    ensures room { SameRoom found.old found.new }
    ensures shape { KeepsShape geometry.now.slots (F.state flash.old) (F.state flash.new) result }
{
    found.clear();
    if recover(found, flash, geometry).is_err() {
        found.clear();
        return Err(ScanError::Flash);
    }
    Ok(())
}

// All passes, from nothing found.
fn recover<F: Flash>(
    found: &mut Found,
    flash: &mut F,
    geometry: &Geometry,
) -> Result<(), FlashFailed>
    requires fits { Fits geometry.now (F.state flash.old) }
    requires empty { IsEmpty found.old }
    requires room { HasRoom geometry.now.slots found.old }
    ensures recovered { OnOk result (F.tells → IsRecovered geometry.now.slot_size geometry.now.slots
        (F.state flash.old) (F.state flash.new) found.new) }
    ensures crash { F.tells → KeepsRecords geometry.now.slot_size geometry.now.slots (F.state flash.old).told
        (F.state flash.new).told }
    ensures nearly { F.tells → StaysNearly geometry.now.slot_size geometry.now.slots (F.state flash.old).told
        (F.state flash.new).told }
    ensures order { F.tells → KillsBelow geometry.now.slot_size (F.state flash.old).told geometry.now.slots
        (F.state flash.new).told }
    ensures changes { F.tells → ChangesFew geometry.now.slot_size geometry.now.slots (F.state flash.old)
        (F.state flash.new) }
    ensures index { IsIndex geometry.now.slots geometry.now.slot_size found.new.ids.items found.new.places.items }
    ensures few { OnOk result (length found.new.ids.items ≤ geometry.now.slots) }
    ensures free { OnOk result (AreSlots geometry.now.slots found.new.free.items) }
    ensures room { SameRoom found.old found.new }
    ensures shape { KeepsShape geometry.now.slots (F.state flash.old) (F.state flash.new) result }
{
    look_at_slots(&mut found.looks, flash, geometry)?;
    list_records(found, geometry);
    settle_slots(found, flash, geometry)?;
    list_free(found, geometry);
    Ok(())
}
