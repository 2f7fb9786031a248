// What each slot of an image is.
ghost use Rattle.std.specs.Prelude.{◌≡◌, ◌-◌, ◌*◌, ◌<◌, ◌==◌, length, IfOk};
ghost use Rattle.std.specs.List.{list_all};
ghost use Rattle.std.specs.Str.{bytes_eq};
ghost use Rattle.record_model.specs.Records.{slot_at, entry_of, is_first};
ghost use Rattle.image_survey.specs.Kinds.{is_erased};
ghost use Rattle.record_slots.specs.Looks.{AreSeen, AreMarked};
ghost use Rattle.image_survey.specs.Shown.{IsShown, AreShown};

use crate::firsts::first_slots;
use crate::further::is_taken;
use crate::kinds::kind_of;
use crate::looks::{look_at_slots, place_of};
use crate::{Look, SlotKind};
use flash_model::Geometry;
use record_slots::is_upright;
use std::alloc::{AllocError, Global};

const ERASED: u8 = 0xFF;

/// What a slot is, with its head and its tail mark.
#[derive(Clone, Copy, Debug, PartialEq, Eq)]
pub struct SlotView {
    pub kind: SlotKind,
    pub look: Look,
}

/// What each slot of an image is, in the order of the slots.
pub fn survey_slots(
    alloc: Global,
    image: &[u8],
    geometry: &Geometry,
) -> Result<Vec<SlotView>, AllocError>
    requires sized { length image.now ≡ geometry.now.slot_size * geometry.now.slots }
    ensures all { IfOk result (λ views. length views.items ≡ geometry.now.slots) }
    ensures shown { IfOk result (λ views. AreShown geometry.now.slot_size geometry.now.slots image.now views.items) }
{
    let looks = look_at_slots(alloc, image, geometry)?;
    let firsts = first_slots(alloc, &looks, geometry)?;
    view_slots(alloc, image, geometry, &looks, &firsts)
}

// The same, by the looks at the slots and the marks of the first ones.
fn view_slots(
    alloc: Global,
    image: &[u8],
    geometry: &Geometry,
    looks: &[Look],
    firsts: &[bool],
) -> Result<Vec<SlotView>, AllocError>
    requires sized { length image.now ≡ geometry.now.slot_size * geometry.now.slots }
    requires looked { length looks.now ≡ geometry.now.slots }
    requires judged { length firsts.now ≡ geometry.now.slots }
    requires seen { AreSeen (slot_at geometry.now.slot_size image.now) geometry.now.slots looks.now }
    requires marked { AreMarked geometry.now.slots (is_first (entry_of (geometry.now.slot_size - 64) geometry.now.slots
        (slot_at geometry.now.slot_size image.now)) geometry.now.slots) firsts.now }
    ensures all { IfOk result (λ views. length views.items ≡ geometry.now.slots) }
    ensures shown { IfOk result (λ views. AreShown geometry.now.slot_size geometry.now.slots image.now views.items) }
{
    let mut views = Vec::with_capacity(alloc, geometry.slots() as usize)?;
    for slot in 0..geometry.slots as u32 {
        views.push(view(image, geometry, looks, firsts, slot))?;
    }
    Ok(views)
}

// What a slot is, by what was found of all slots.
fn view(image: &[u8], geometry: &Geometry, looks: &[Look], firsts: &[bool], slot: u32) -> SlotView
    requires sized { length image.now ≡ geometry.now.slot_size * geometry.now.slots }
    requires slot { slot < geometry.now.slots }
    requires looked { length looks.now ≡ geometry.now.slots }
    requires judged { length firsts.now ≡ geometry.now.slots }
    requires seen { AreSeen (slot_at geometry.now.slot_size image.now) geometry.now.slots looks.now }
    requires marked { AreMarked geometry.now.slots (is_first (entry_of (geometry.now.slot_size - 64) geometry.now.slots
        (slot_at geometry.now.slot_size image.now)) geometry.now.slots) firsts.now }
    ensures { IsShown geometry.now.slot_size geometry.now.slots image.now slot result }
{
    let look = looks[slot as usize];
    let kind = kind_of(
        firsts[slot as usize],
        is_upright(&look.head, look.tail, geometry),
        is_taken(looks, firsts, geometry, slot),
        is_erased(image, geometry, slot),
        &look,
    );
    SlotView { kind, look }
}

// Whether each byte of a slot is 0xFF.
#[tactic(auto, unfolding(crate::specs::Kinds::is_erased, base_model::specs::Bytes::part))]
fn is_erased(image: &[u8], geometry: &Geometry, slot: u32) -> bool
    requires sized { length image.now ≡ geometry.now.slot_size * geometry.now.slots }
    requires slot { slot < geometry.now.slots }
    ensures { result ≡ is_erased geometry.now.slot_size image.now slot }
{
    let place = place_of(geometry, slot);
    let size = geometry.slot_size() as usize;
    are_erased(&image[place..place + size])
}

// Whether each byte is 0xFF: the first is, and each other is as the one before it. So many are compared at once.
fn are_erased(bytes: &[u8]) -> bool
    ensures { result ≡ list_all (λ byte. byte == 0xFF) bytes.now }
{
    let Some((first, rest)) = bytes.split_first() else {
        return true;
    };
    *first == ERASED && are_equal(rest, &bytes[..rest.len()])
}

fn are_equal(one: &[u8], other: &[u8]) -> bool
    ensures { result ≡ bytes_eq one.now other.now }
{
    one == other
}
