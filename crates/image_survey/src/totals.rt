// What all slots of an image are together.
ghost use Rattle.std.specs.Prelude.{◌≡◌, ◌^◌, ◌<◌, ◌≤◌, ℕ, List, length};
ghost use Rattle.record_model.specs.Records.{one_if};
ghost use Rattle.image_survey.specs.Shown.{AreShown};
ghost use Rattle.image_survey.specs.Counts.{AreTotals, bytes_of};

use crate::{SlotKind, SlotView};
use flash_model::Geometry;

/// How many slots an image has in which no record stands that a boot finds, how many such records, how many second copies,
/// and how many bytes the records have together.
#[derive(Clone, Copy, Debug, PartialEq, Eq)]
pub struct Totals {
    pub free: u32,
    pub records: u32,
    pub second_copies: u32,
    pub bytes: u64,
}

/// The totals of all slots.
pub fn count_slots(views: &[SlotView], geometry: &Geometry) -> Totals
    requires all { length views.now ≡ geometry.now.slots }
    ensures { (image : List ℕ) → AreShown geometry.now.slot_size geometry.now.slots image views.now
        → AreTotals geometry.now.slot_size geometry.now.slots image result }
{
    let mut free = 0;
    let mut records = 0;
    let mut second_copies = 0;
    let mut bytes = 0;
    for slot in 0..geometry.slots as u32 {
        let view = &views[slot as usize];
        let is_free = one_if(view.kind.is_free());
        let is_record = one_if(view.kind.is_record());
        let is_copy = one_if(view.kind.is_second_copy());
        free += is_free;
        records += is_record;
        second_copies += is_copy;
        bytes += bytes_of(view);
    }
    Totals {
        free,
        records,
        second_copies,
        bytes,
    }
}

/// One for what passes a test.
pub fn one_if(is: bool) -> u32
    ensures value { result ≡ one_if is }
    ensures few { result ≤ 1 }
{
    u32::from(is)
}

// The bytes of the record whose first slot this is.
fn bytes_of(view: &SlotView) -> u64
    ensures value { result ≡ bytes_of view.now.kind view.now.look.head.len }
    ensures few { result < 2 ^ 32 }
{
    if view.kind == SlotKind::First {
        u64::from(view.look.head.len)
    } else {
        0
    }
}
