// The record of an identifier.
ghost use Rattle.std.specs.Prelude.{◌≡◌, ℕ, ◌<◌, List, length, None, MatchOption, IfSome};
ghost use Rattle.std.specs.FinMap.{get};
ghost use Rattle.record_model.specs.Records.{stored_in};
ghost use Rattle.image_survey.specs.Shown.{AreShown, IsFirstOf};

use crate::{SlotKind, SlotView};
use flash_model::Geometry;

/// The first slot of the record that a boot finds under an identifier.
pub fn find(views: &[SlotView], geometry: &Geometry, id: u64) -> Option<u32>
    requires all { length views.now ≡ geometry.now.slots }
    ensures found { (image : List ℕ) → AreShown geometry.now.slot_size geometry.now.slots image views.now
        → MatchOption result (get (stored_in geometry.now.slot_size geometry.now.slots image) id ≡ None)
        (λ slot. IsFirstOf geometry.now.slot_size geometry.now.slots image slot id) }
    ensures within { IfSome result (λ slot. slot < geometry.now.slots) }
{
    for slot in 0..geometry.slots as u32 {
        let view = &views[slot as usize];
        if view.kind == SlotKind::First && view.look.head.id == id {
            return Some(slot);
        }
    }
    None
}
