// Which slots are the first slots of their identifiers' records.
ghost use Rattle.std.specs.Prelude.{◌≡◌, ℕ, ◌-◌, ◌<◌, ◌==◌, ◌&&◌, ◌||◌, nat_lt, length, IfOk};
ghost use Rattle.record_model.specs.Records.{Slot, is_live, entry_of, record_of, goes_before, is_first};
ghost use Rattle.record_slots.specs.Looks.{AreSeen, AreMarked};

use crate::Look;
use crate::lives::live_slots;
use flash_model::Geometry;
use record_slots::Head;
use std::alloc::{AllocError, Global};

/// A mark for each slot, set where it is the first slot of its identifier's record.
pub fn first_slots(
    alloc: Global,
    looks: &[Look],
    geometry: &Geometry,
) -> Result<Vec<bool>, AllocError>
    requires { length looks.now ≡ geometry.now.slots }
    ensures marked { IfOk result (λ firsts. (seen : ℕ → Slot) → AreSeen seen geometry.now.slots looks.now
        → AreMarked geometry.now.slots (is_first (entry_of (geometry.now.slot_size - 64) geometry.now.slots seen)
        geometry.now.slots) firsts.items) }
    ensures all { IfOk result (λ firsts. length firsts.items ≡ geometry.now.slots) }
{
    let lives = live_slots(alloc, looks, geometry)?;
    first_among(alloc, looks, &lives, geometry)
}

// The same, by the marks of the live slots.
fn first_among(
    alloc: Global,
    looks: &[Look],
    lives: &[bool],
    geometry: &Geometry,
) -> Result<Vec<bool>, AllocError>
    requires looked { length looks.now ≡ geometry.now.slots }
    requires judged { length lives.now ≡ geometry.now.slots }
    ensures marked { IfOk result (λ firsts. (seen : ℕ → Slot) → AreSeen seen geometry.now.slots looks.now
        → AreMarked geometry.now.slots (is_live (geometry.now.slot_size - 64) geometry.now.slots seen) lives.now
        → AreMarked geometry.now.slots (is_first (entry_of (geometry.now.slot_size - 64) geometry.now.slots seen)
        geometry.now.slots) firsts.items) }
    ensures all { IfOk result (λ firsts. length firsts.items ≡ geometry.now.slots) }
{
    let mut firsts = Vec::with_capacity(alloc, geometry.slots() as usize)?;
    for slot in 0..geometry.slots as u32 {
        firsts.push(is_first(looks, lives, geometry, slot))?;
    }
    Ok(firsts)
}

// Whether a slot is the first slot of its identifier's record: it is live, and no other live slot of the identifier is
// newer, or as new and lower.
fn is_first(looks: &[Look], lives: &[bool], geometry: &Geometry, slot: u32) -> bool
    requires looked { length looks.now ≡ geometry.now.slots }
    requires judged { length lives.now ≡ geometry.now.slots }
    requires slot { slot < geometry.now.slots }
    ensures { (seen : ℕ → Slot) → AreSeen seen geometry.now.slots looks.now
        → AreMarked geometry.now.slots (is_live (geometry.now.slot_size - 64) geometry.now.slots seen) lives.now
        → result ≡ is_first (entry_of (geometry.now.slot_size - 64) geometry.now.slots seen) geometry.now.slots slot }
{
    if !lives[slot as usize] {
        return false;
    }
    for at in 0..geometry.slots as u32 {
        if is_ahead(looks, lives, geometry, at, slot) {
            return false;
        }
    }
    true
}

// Whether a slot is live, and its record goes before that of a live slot.
fn is_ahead(looks: &[Look], lives: &[bool], geometry: &Geometry, at: u32, slot: u32) -> bool
    requires looked { length looks.now ≡ geometry.now.slots }
    requires judged { length lives.now ≡ geometry.now.slots }
    requires at { at < geometry.now.slots }
    requires slot { slot < geometry.now.slots }
    ensures { (seen : ℕ → Slot) → AreSeen seen geometry.now.slots looks.now
        → AreMarked geometry.now.slots (is_live (geometry.now.slot_size - 64) geometry.now.slots seen) lives.now
        → result ≡ goes_before (entry_of (geometry.now.slot_size - 64) geometry.now.slots seen at) at
        (record_of (geometry.now.slot_size - 64) seen slot) slot }
{
    if !lives[at as usize] {
        return false;
    }
    comes_before(
        &looks[at as usize].head,
        at,
        &looks[slot as usize].head,
        slot,
    )
}

// Whether the record of a live slot goes before that of another: it has the identifier, and is newer, or as new in a lower
// slot.
#[tactic(auto, using(std::proofs::lemmas::Bool::Decides::nat_tests))]
fn comes_before(other: &Head, at: u32, this: &Head, slot: u32) -> bool
    ensures { result ≡ (other.now.id == this.now.id && (nat_lt this.now.generation other.now.generation
        || (this.now.generation == other.now.generation && nat_lt at slot))) }
{
    if other.id != this.id {
        return false;
    }
    this.generation < other.generation || this.generation == other.generation && at < slot
}
