// Which slots are slots of the records that a boot finds.
ghost use Rattle.std.specs.Prelude.{◌≡◌, ℕ, ◌-◌, ◌<◌, ◌==◌, ◌||◌, ◌&&◌, nat_lt, length, slice_index};
ghost use Rattle.std.specs.List.{list_any};
ghost use Rattle.record_model.specs.Records.{Slot, entry_of, is_first, is_taken, further_of};
ghost use Rattle.record_slots.specs.Listed.{first_records};
ghost use Rattle.record_slots.specs.Slots.{numbers_of};
ghost use Rattle.record_slots.specs.Looks.{AreSeen, AreMarked};

use crate::Look;
use flash_model::Geometry;
use record_slots::{Head, parts_of};

/// Whether a slot is one of those of a record that a boot finds.
pub fn is_taken(looks: &[Look], firsts: &[bool], geometry: &Geometry, slot: u32) -> bool
    requires looked { length looks.now ≡ geometry.now.slots }
    requires judged { length firsts.now ≡ geometry.now.slots }
    ensures { (seen : ℕ → Slot) → AreSeen seen geometry.now.slots looks.now
        → AreMarked geometry.now.slots (is_first (entry_of (geometry.now.slot_size - 64) geometry.now.slots seen)
        geometry.now.slots) firsts.now → result
        ≡ is_taken (first_records (entry_of (geometry.now.slot_size - 64) geometry.now.slots seen) geometry.now.slots)
        geometry.now.slots slot }
{
    for first in 0..geometry.slots as u32 {
        if firsts[first as usize] && has_slot(&looks[first as usize].head, geometry, first, slot) {
            return true;
        }
    }
    false
}

// Whether the record of a first slot has a slot.
#[tactic(auto, using(std::proofs::lemmas::Bool::Decides::nat_tests))]
fn has_slot(head: &Head, geometry: &Geometry, first: u32, slot: u32) -> bool
    ensures { result ≡ (slot == first || list_any (λ n. slot == n) (further_of (geometry.now.slot_size - 64)
        (numbers_of head.now))) }
{
    slot == first || names(head, geometry, slot)
}

// Whether the head of a first slot names a further slot.
fn names(head: &Head, geometry: &Geometry, slot: u32) -> bool
    ensures { result ≡ list_any (λ n. slot == n) (further_of (geometry.now.slot_size - 64) (numbers_of head.now)) }
{
    let further = parts_of(geometry, head.len).saturating_sub(1);
    let first = names_at(head, further, slot, 0);
    let second = names_at(head, further, slot, 1);
    let third = names_at(head, further, slot, 2);
    any_of(first, second, third)
}

fn any_of(first: bool, second: bool, third: bool) -> bool
    ensures { result ≡ (first || second || third) }
{
    first || second || third
}

// Whether one of the numbers is that of the slot, where it is one of the first so many.
#[tactic(auto, using(std::proofs::lemmas::Bool::Decides::nat_tests))]
fn names_at(head: &Head, further: u32, slot: u32, at: usize) -> bool
    requires { at < 3 }
    ensures { result ≡ (nat_lt at further && (slot == slice_index head.now.next at)) }
{
    let next = head.next[at];
    at < further as usize && u32::from(next) == slot
}
