// The heads and the tail marks of an image's slots.
ghost use Rattle.std.specs.Prelude.{◌≡◌, ◌+◌, ◌*◌, ◌<◌, ◌≤◌, length, IfOk};
ghost use Rattle.record_model.specs.Records.{slot_at};
ghost use Rattle.record_slots.specs.Looks.{IsSeen, AreSeen};

use crate::Look;
use flash_model::Geometry;
use record_slots::Head;
use std::alloc::{AllocError, Global};

/// The place of a slot's first byte.
#[tactic(auto, using(record_model::proofs::SlotLemmas::slot_within))]
pub fn place_of(geometry: &Geometry, slot: u32) -> usize
    requires { slot < geometry.now.slots }
    ensures place { result ≡ slot * geometry.now.slot_size }
    ensures within { result + geometry.now.slot_size ≤ geometry.now.slot_size * geometry.now.slots }
{
    (u64::from(slot) * geometry.slot_size()) as usize
}

/// The head and the tail mark of a slot of an image.
pub fn look_at(image: &[u8], geometry: &Geometry, slot: u32) -> Look
    requires sized { length image.now ≡ geometry.now.slot_size * geometry.now.slots }
    requires slot { slot < geometry.now.slots }
    ensures { IsSeen (slot_at geometry.now.slot_size image.now slot) result }
{
    let place = place_of(geometry, slot);
    let mut head = [0u8; 32];
    head.copy_from_slice(&image[place..place + 32]);
    let tail = image[place + (geometry.slot_size() as usize - 1)];
    Look {
        head: Head::decode(&head),
        tail,
    }
}

/// Those of all slots, one after another.
pub fn look_at_slots(
    alloc: Global,
    image: &[u8],
    geometry: &Geometry,
) -> Result<Vec<Look>, AllocError>
    requires sized { length image.now ≡ geometry.now.slot_size * geometry.now.slots }
    ensures seen { IfOk result (λ looks. AreSeen (slot_at geometry.now.slot_size image.now) geometry.now.slots
        looks.items) }
    ensures looked { IfOk result (λ looks. length looks.items ≡ geometry.now.slots) }
{
    let mut looks = Vec::with_capacity(alloc, geometry.slots() as usize)?;
    for slot in 0..geometry.slots as u32 {
        looks.push(look_at(image, geometry, slot))?;
    }
    Ok(looks)
}
