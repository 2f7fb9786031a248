// The lists that a store keeps of its slots: the identifiers with the places of their records, and the free slots.
ghost use Rattle.std.specs.Prelude.{◌≡◌, ◌≢◌, ◌⊎◌, ℕ, ◌+◌, ◌-◌, ◌<◌, ◌≤◌, List, false, [], ◌∷◌, length, take, drop, Option, IfSome};
ghost use Rattle.std.specs.List.Sorted.{IsStrictlyIncreasing};
ghost use Rattle.std.specs.VecDeque.{deque_capacity};
ghost use Rattle.record_slots.specs.Next.{IsNextAfter};
ghost use Rattle.record_model.specs.Records.{Entry, IsChosen, selected, is_reserved, parts_of};
ghost use Rattle.record_model.specs.RecordMap.{IsNextAbove};
ghost use Rattle.record_slots.specs.Listed.{AreSlots, IsIndex, IsWithin};
ghost use Rattle.record_slots.specs.Listing.{IsNewlyListed, IsListedAgain};
ghost use Rattle.record_store.specs.Index.{IsListing, IsListOf, HasOpened, HasLost, IsEntryOf, IsPlaceFound, IsPlaceAt, Frees, slots_at};

use flash_model::Geometry;
use record_slots::{Found, RecordId, SlotOf, list_record, next_after, parts_of, position_of};

/// Where the record of an identifier is.
pub fn place_of(found: &Found, id: RecordId) -> Option<SlotOf>
    requires rising { IsStrictlyIncreasing found.now.ids.items }
    requires paired { length found.now.places.items ≡ length found.now.ids.items }
    ensures allowed { is_reserved id ≡ false }
    ensures at { IsPlaceAt found.now.ids.items found.now.places.items id result }
    ensures within { (slots slot_size : ℕ) → IsIndex slots slot_size found.now.ids.items found.now.places.items
        → IfSome result (IsWithin slots slot_size) }
    ensures place { (entry : ℕ → Option Entry) (slots : ℕ) → IsListOf entry slots found.now
        → IsPlaceFound entry slots id result }
{
    prove!(id.get() != 0);
    match position_of(&found.ids, id) {
        Ok(at) => Some(found.places[at]),
        Err(_) => None,
    }
}

/// The least identifier above a cursor that has a record.
pub fn next_id(found: &Found, cursor: u64) -> Option<RecordId>
    requires { IsStrictlyIncreasing found.now.ids.items }
    ensures after { IsNextAfter found.now.ids.items cursor result }
    ensures next { (entry : ℕ → Option Entry) (slots : ℕ) → IsListOf entry slots found.now
        → IsNextAbove cursor (selected entry slots) result }
{
    next_after(&found.ids, cursor)
}

/// Lists the record of a slot that was free, which is newer than all of its identifier. It has the first of the slots that
/// are listed as free.
pub fn record_opened(
    found: &mut Found,
    geometry: &Geometry,
    id: RecordId,
    place: SlotOf,
    parts: u32,
)
    requires listing { IsListing geometry.now.slots geometry.now.slot_size found.old }
    requires within { IsWithin geometry.now.slots geometry.now.slot_size place }
    requires enough { parts ≤ length found.old.free.items }
    ensures listing { IsListing geometry.now.slots geometry.now.slot_size found.new }
    ensures list { (entry other : ℕ → Option Entry) (e : Entry)
        → HasOpened entry other geometry.now.slots place.slot e → IsEntryOf id place e
        → place.slot ∷ e.further ≡ take parts found.old.free.items → IsListOf entry geometry.now.slots found.old
        → IsListOf other geometry.now.slots found.new }
{
    list_opened(found, geometry, id, place);
    take_free(found, geometry, parts as usize);
}

/// Lists the slots of a record as free whose first slot was killed, and which was not that of its identifier.
pub fn copy_killed(found: &mut Found, geometry: &Geometry, place: SlotOf)
    requires listing { IsListing geometry.now.slots geometry.now.slot_size found.old }
    requires within { IsWithin geometry.now.slots geometry.now.slot_size place }
    ensures listing { IsListing geometry.now.slots geometry.now.slot_size found.new }
    ensures list { (entry other : ℕ → Option Entry) (id : ℕ) (lost : Entry)
        → HasLost entry other geometry.now.slots place.slot lost → IsEntryOf id place lost
        → 1 + length lost.further ≡ parts_of (geometry.now.slot_size - 64) (length lost.body)
        → ((k : ℕ) × (c : Entry) × IsChosen entry geometry.now.slots k c × (c.id ≡ lost.id) × (k ≢ place.slot))
        → IsListOf entry geometry.now.slots found.old → IsListOf other geometry.now.slots found.new }
{
    free_record(found, geometry, place);
}

/// Lists an identifier no more whose only slot was killed, and lists the slots of its record as free.
pub fn record_cleared(found: &mut Found, geometry: &Geometry, id: RecordId)
    requires listing { IsListing geometry.now.slots geometry.now.slot_size found.old }
    ensures listing { IsListing geometry.now.slots geometry.now.slot_size found.new }
    ensures list { (entry other : ℕ → Option Entry) (j : ℕ) (lost : Entry) → j < geometry.now.slots
        → HasLost entry other geometry.now.slots j lost → lost.id ≡ id
        → 1 + length lost.further ≡ parts_of (geometry.now.slot_size - 64) (length lost.body)
        → ((k : ℕ) (e : Entry) → k < geometry.now.slots → entry k ≡ Some e → e.id ≡ id → k ≡ j)
        → IsListOf entry geometry.now.slots found.old → IsListOf other geometry.now.slots found.new }
{
    let Ok(at) = position_of(&found.ids, id) else {
        return;
    };
    found.ids.remove(at);
    let place = found.places.remove(at);
    free_record(found, geometry, place);
}

// Lists the record of a slot. Where each slot has an identifier already, none is free, and there is no other record.
fn list_opened(found: &mut Found, geometry: &Geometry, id: RecordId, place: SlotOf)
    requires listing { IsListing geometry.now.slots geometry.now.slot_size found.old }
    requires within { IsWithin geometry.now.slots geometry.now.slot_size place }
    ensures listing { IsListing geometry.now.slots geometry.now.slot_size found.new }
    ensures free { found.new.free ≡ found.old.free }
    ensures listed { length found.old.ids.items < geometry.now.slots
        → IsNewlyListed found.old found.new id place ⊎ IsListedAgain found.old found.new id place }
{
    if (found.ids.len() as u64) < geometry.slots() {
        list_record(found, id, place);
    }
}

// Lists the first of the free slots as free no more.
fn take_free(found: &mut Found, geometry: &Geometry, count: usize)
    requires listing { IsListing geometry.now.slots geometry.now.slot_size found.old }
    requires enough { count ≤ length found.old.free.items }
    ensures listing { IsListing geometry.now.slots geometry.now.slot_size found.new }
    ensures free { found.new.free.items ≡ drop count found.old.free.items }
    ensures ids { found.new.ids ≡ found.old.ids }
    ensures places { found.new.places ≡ found.old.places }
{
    found.free.drain(..count);
}

// Lists the slots of the record at a place as free.
fn free_record(found: &mut Found, geometry: &Geometry, place: SlotOf)
    requires free { AreSlots geometry.now.slots found.old.free.items }
    requires room { geometry.now.slots ≤ deque_capacity found.old.free }
    requires within { IsWithin geometry.now.slots geometry.now.slot_size place }
    ensures { Frees geometry.now.slots (slots_at (geometry.now.slot_size - 64) place) found.old found.new }
{
    list_free(found, geometry, place.slot);
    let further = parts_of(geometry, place.len) - 1;
    for at in 0..further {
        list_free(found, geometry, u32::from(place.next[at as usize]));
    }
}

// Lists a slot as free.
fn list_free(found: &mut Found, geometry: &Geometry, slot: u32)
    requires free { AreSlots geometry.now.slots found.old.free.items }
    requires room { geometry.now.slots ≤ deque_capacity found.old.free }
    requires within { slot < geometry.now.slots }
    ensures { Frees geometry.now.slots (slot ∷ []) found.old found.new }
{
    if let Err(at) = found.free.binary_search(&slot) {
        let _ = found.free.insert(at, slot);
    }
}
