// The third pass of a scan: the end of every upright slot that is not the first slot of its identifier's record. Each kill
// leaves the records of the flash, wherever power is lost in it, since such a slot has no say in which records there are.
ghost use Rattle.std.specs.Prelude.{◌≡◌, ℕ, ◌+◌, ◌-◌, ◌*◌, ◌<◌, ◌≤◌, ◌==◌, not, [], length, slice_index_or, OnOk, OnErr};
ghost use Rattle.std.specs.VecDeque.{deque_len, deque_capacity};
ghost use Rattle.std.specs.List.{list_any};
ghost use Rattle.base_model.specs.Flash.{FlashState, MayChange};
ghost use Rattle.record_model.specs.Records.{entry_at, slot_at};
ghost use Rattle.record_slots.specs.Slots.{Fits};
ghost use Rattle.record_slots.specs.declared.found.Look.{Look};
ghost use Rattle.record_slots.specs.Listed.{AreListed, AreWithin, list_below, with_number, takes};
ghost use Rattle.record_slots.specs.Looks.{IsSeen, AreSeen, AreMarked};
ghost use Rattle.record_slots.specs.Recovered.{KeepsRecords, StaysNearly, KillsBelow, ChangesFew};
ghost use Rattle.record_slots.specs.Settling.{IsSettled, CountsCopies, OnlyChanges};

use crate::marking::{MAX_SLOTS, mark_firsts, mark_taken};
use crate::{Found, is_upright, kill};
use flash_model::{Flash, FlashFailed, Geometry};
use std::collections::VecDeque;

/// Kills every upright slot that is not the first slot of a record that was found, in rising order.
pub fn settle_slots<F: Flash>(
    found: &Found,
    flash: &mut F,
    geometry: &Geometry,
) -> Result<(), FlashFailed>
    requires fits { Fits geometry.now (F.state flash.old) }
    requires listed { F.tells → AreListed (entry_at geometry.now.slot_size geometry.now.slots
        (F.state flash.old).told.image) geometry.now.slots found.now.ids.items found.now.places.items }
    requires paired { length found.now.places.items ≡ length found.now.ids.items }
    requires within { AreWithin geometry.now.slots geometry.now.slot_size found.now.places.items }
    requires looked { length found.now.looks.items ≡ geometry.now.slots }
    requires seen { F.tells → AreSeen (slot_at geometry.now.slot_size (F.state flash.old).told.image)
        geometry.now.slots found.now.looks.items }

    ensures settled { OnOk result (F.tells → IsSettled geometry.now.slot_size geometry.now.slots geometry.now.slots
        (F.state flash.old) (F.state flash.new) found.now) }
    ensures counted { OnOk result (F.tells
        → CountsCopies geometry.now.slot_size geometry.now.slots (F.state flash.old) (F.state flash.new)) }
    ensures crash { F.tells → KeepsRecords geometry.now.slot_size geometry.now.slots (F.state flash.old).told
        (F.state flash.new).told }
    ensures nearly { F.tells → StaysNearly geometry.now.slot_size geometry.now.slots (F.state flash.old).told
        (F.state flash.new).told }
    ensures order { F.tells → KillsBelow geometry.now.slot_size (F.state flash.old).told geometry.now.slots
        (F.state flash.new).told }
    ensures changes { F.tells → ChangesFew geometry.now.slot_size geometry.now.slots (F.state flash.old)
        (F.state flash.new) }
    ensures stays { OnlyChanges (F.state flash.old) (F.state flash.new) result }
{
    let firsts = mark_firsts(&found.places, geometry);
    for slot in 0..geometry.slots as u32 {
        settle_slot(found, &firsts, slot, flash, geometry)?;
    }
    Ok(())
}

// Kills a slot that is upright and not the first slot of a record that was found.
fn settle_slot<F: Flash>(
    found: &Found,
    firsts: &[bool; MAX_SLOTS],
    slot: u32,
    flash: &mut F,
    geometry: &Geometry,
) -> Result<(), FlashFailed>
    requires fits { Fits geometry.now (F.state flash.old) }
    requires slot { slot < geometry.now.slots }
    requires listed { F.tells → AreListed (entry_at geometry.now.slot_size geometry.now.slots
        (F.state flash.old).told.image) geometry.now.slots found.now.ids.items found.now.places.items }
    requires paired { length found.now.places.items ≡ length found.now.ids.items }
    requires looked { length found.now.looks.items ≡ geometry.now.slots }
    requires seen { F.tells → (d : Look) → IsSeen (slot_at geometry.now.slot_size (F.state flash.old).told.image slot)
        (slice_index_or found.now.looks.items slot d) }
    requires firsts { AreMarked geometry.now.slots (λ slot. list_any (λ place. place.slot == slot)
        found.now.places.items) firsts.now }

    ensures settled { OnOk result (F.tells → (start : FlashState)
        → IsSettled geometry.now.slot_size geometry.now.slots slot start (F.state flash.old) found.now
        → IsSettled geometry.now.slot_size geometry.now.slots (slot + 1) start (F.state flash.new) found.now) }
    ensures counted { OnOk result (F.tells
        → CountsCopies geometry.now.slot_size geometry.now.slots (F.state flash.old) (F.state flash.new)) }
    ensures crash { F.tells → KeepsRecords geometry.now.slot_size geometry.now.slots (F.state flash.old).told
        (F.state flash.new).told }
    ensures nearly { F.tells → StaysNearly geometry.now.slot_size geometry.now.slots (F.state flash.old).told
        (F.state flash.new).told }
    ensures change { F.tells → MayChange (slot * geometry.now.slot_size + 1) 1 (F.state flash.old).told
        (F.state flash.new).told }
    ensures failed { OnErr result (F.tells → ChangesFew geometry.now.slot_size geometry.now.slots (F.state flash.old)
        (F.state flash.new)) }
    ensures stays { OnlyChanges (F.state flash.old) (F.state flash.new) result }
{
    let is_first = firsts[slot as usize];
    if is_first {
        return Ok(());
    }
    let look = &found.looks[slot as usize];
    if !is_upright(&look.head, look.tail, geometry) {
        return Ok(());
    }
    kill(flash, geometry, slot)?;
    Ok(())
}

/// Lists the slots that are none of a record that was found, in rising order.
pub fn list_free(found: &mut Found, geometry: &Geometry)
    requires within { AreWithin geometry.now.slots geometry.now.slot_size found.old.places.items }
    requires free { found.old.free.items ≡ [] }
    requires room { geometry.now.slots ≤ deque_capacity found.old.free }
    ensures free { found.new.free.items ≡ list_below
        (λ slot. not (list_any (λ place. takes (geometry.now.slot_size - 64) place slot) found.old.places.items))
        geometry.now.slots }
    ensures ids { found.new.ids ≡ found.old.ids }
    ensures places { found.new.places ≡ found.old.places }
    ensures looks { found.new.looks ≡ found.old.looks }
    ensures capacity { deque_capacity found.new.free ≡ deque_capacity found.old.free }
{
    let mut taken = [false; MAX_SLOTS];
    mark_taken(&found.places, geometry, &mut taken);
    for slot in 0..geometry.slots as u32 {
        list_if_free(&mut found.free, taken[slot as usize], slot);
    }
}

fn list_if_free(free: &mut VecDeque<u32>, is_taken: bool, slot: u32)
    requires { deque_len free.old < deque_capacity free.old }
    ensures items { free.new.items ≡ with_number (not is_taken) slot free.old.items }
    ensures few { deque_len free.new ≤ deque_len free.old + 1 }
    ensures capacity { deque_capacity free.new ≡ deque_capacity free.old }
{
    if !is_taken {
        free.push_back_reserved(slot);
    }
}
