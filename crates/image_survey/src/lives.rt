// Which slots are live: upright, with the further parts of their records.
ghost use Rattle.std.specs.Prelude.{◌≡◌, ℕ, ◌-◌, ◌<◌, length, IfOk};
ghost use Rattle.record_model.specs.Records.{Slot, is_live};
ghost use Rattle.record_slots.specs.Looks.{AreSeen, AreMarked};

use crate::Look;
use flash_model::Geometry;
use record_slots::{has_parts, is_upright};
use std::alloc::{AllocError, Global};

/// A mark for each slot, set where it is live.
pub fn live_slots(
    alloc: Global,
    looks: &[Look],
    geometry: &Geometry,
) -> Result<Vec<bool>, AllocError>
    requires looked { length looks.now ≡ geometry.now.slots }
    ensures marked { IfOk result (λ lives. (seen : ℕ → Slot) → AreSeen seen geometry.now.slots looks.now
        → AreMarked geometry.now.slots (is_live (geometry.now.slot_size - 64) geometry.now.slots seen) lives.items) }
    ensures all { IfOk result (λ lives. length lives.items ≡ geometry.now.slots) }
{
    let mut lives = Vec::with_capacity(alloc, geometry.slots() as usize)?;
    for slot in 0..geometry.slots as u32 {
        lives.push(is_live(looks, geometry, slot))?;
    }
    Ok(lives)
}

// Whether a slot is live.
fn is_live(looks: &[Look], geometry: &Geometry, slot: u32) -> bool
    requires looked { length looks.now ≡ geometry.now.slots }
    requires slot { slot < geometry.now.slots }
    ensures { (seen : ℕ → Slot) → AreSeen seen geometry.now.slots looks.now
        → result ≡ is_live (geometry.now.slot_size - 64) geometry.now.slots seen slot }
{
    let look = looks[slot as usize];
    is_upright(&look.head, look.tail, geometry) && has_parts(looks, geometry, slot, &look.head)
}
