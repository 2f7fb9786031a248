// Which slots the records that were found stand in.
ghost use Rattle.std.specs.Prelude.{◌≡◌, ℕ, ◌+◌, ◌-◌, ◌<◌, ◌≤◌, ◌==◌, ◌||◌, Bool, false, length, replicate, slice_index_or};
ghost use Rattle.std.specs.List.{list_any};
ghost use Rattle.record_slots.specs.Listed.{AreWithin, IsWithin, takes};
ghost use Rattle.record_slots.specs.Looks.{AreMarked};

use crate::{SlotOf, parts_of};
use flash_model::Geometry;

/// The greatest number of slots of a store.
pub const MAX_SLOTS: usize = 1024;

/// A mark for each slot, set where it is the first slot of one of these records.
pub fn mark_firsts(places: &[SlotOf], geometry: &Geometry) -> [bool; MAX_SLOTS]
    requires within { AreWithin geometry.now.slots geometry.now.slot_size places.now }
    ensures { AreMarked geometry.now.slots (λ slot. list_any (λ place. place.slot == slot) places.now) result }
{
    let mut marks = [false; MAX_SLOTS];
    for place in places {
        marks[place.slot as usize] = true;
    }
    marks
}

/// Sets the mark of each slot that is one of the slots of one of these records. None is set before.
pub fn mark_taken(places: &[SlotOf], geometry: &Geometry, marks: &mut [bool; MAX_SLOTS])
    requires within { AreWithin geometry.now.slots geometry.now.slot_size places.now }
    requires none { marks.old ≡ replicate MAX_SLOTS false }
    ensures { AreMarked geometry.now.slots (λ slot. list_any (λ place. takes (geometry.now.slot_size - 64) place slot)
        places.now) marks.new }
{
    for place in places {
        mark_place(marks, place, geometry);
    }
}

// Sets the marks of the slots of a record.
fn mark_place(marks: &mut [bool; MAX_SLOTS], place: &SlotOf, geometry: &Geometry)
    requires within { IsWithin geometry.now.slots geometry.now.slot_size place.now }
    ensures { (k : ℕ) (d : Bool) → k < geometry.now.slots
        → slice_index_or marks.new k d ≡ (slice_index_or marks.old k d
        || takes (geometry.now.slot_size - 64) place.now k) }
{
    marks[place.slot as usize] = true;
    for at in 0..parts_of(geometry, place.len) - 1 {
        marks[place.next[at as usize] as usize] = true;
    }
}
