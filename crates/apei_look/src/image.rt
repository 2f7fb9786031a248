// An image, and what was found of its slots.
ghost use Rattle.std.specs.Prelude.{◌≡◌, ◌*◌, ◌-◌, ◌<◌, ◌≤◌, length, IfOk, IfSome, MatchOption};
ghost use Rattle.record_model.specs.Records.{slot_at};
ghost use Rattle.record_model.specs.Slots.{further_of};
ghost use Rattle.record_slots.specs.Slots.{numbers_of};
ghost use Rattle.image_survey.specs.Kinds.{kind_at};
ghost use Rattle.image_survey.specs.Reading.{IsRecordOf};
ghost use Rattle.image_survey.specs.Shown.{AreShown, IsShown};
ghost use Rattle.image_survey.specs.declared.kinds.SlotKind.TheVariants.{First};
ghost use Rattle.apei_look.specs.Places.{flash_at, place_of_slot, IsEnd};

use crate::places::flash_at;
use flash_model::Geometry;
use image_survey::{SlotView, record_at};
use record_slots::{Head, parts_of};
use std::alloc::{AllocError, Global};

/// The bytes of a flash, its geometry, what each of its slots is, and the file that it stands in.
#[derive(Clone, Copy)]
pub struct Image<'a> {
    pub bytes: &'a [u8],
    pub geometry: &'a Geometry,
    pub views: &'a [SlotView],
    /// Whether the file is a library's medium: then a sector that says so stands before the flash.
    pub is_medium: bool,
    /// How many bytes the file has: those behind them, where it is cut off, stand here as erased.
    pub held: u64,
    pub ghost sized: { length bytes.now ≡ geometry.now.slot_size * geometry.now.slots },
    pub ghost all: { length views.now ≡ geometry.now.slots },
    pub ghost shown: { AreShown geometry.now.slot_size geometry.now.slots bytes.now views.now },
}

impl<'a> Image<'a> {
    /// The byte of the file at which the flash begins.
    pub(crate) fn flash_at(&self) -> u64
        ensures at { result ≡ flash_at self.now.is_medium self.now.geometry.now }
        ensures near { result ≤ self.now.geometry.now.sector }
    {
        flash_at(self.geometry, self.is_medium)
    }

    /// The byte of the file at which a slot begins.
    pub(crate) fn place_of(&self, slot: u32) -> u64
        requires { slot < self.now.geometry.now.slots }
        ensures { result ≡ place_of_slot self.now.is_medium self.now.geometry.now slot }
    {
        self.flash_at() + u64::from(slot) * self.geometry.slot_size()
    }

    /// The slot in which the file ends; none where it ends before the flash begins.
    pub(crate) fn last_slot(&self) -> Option<u64>
        ensures { IsEnd self.now.is_medium self.now.geometry.now self.now.held result }
    {
        let held = self.held.checked_sub(self.flash_at())?;
        Some(held / self.geometry.slot_size())
    }

    /// What a slot is, with its head and its tail mark.
    pub(crate) fn view(&self, slot: u32) -> &'a SlotView
        requires { slot < self.now.geometry.now.slots }
        ensures { IsShown self.now.geometry.now.slot_size self.now.geometry.now.slots self.now.bytes.now slot result.now }
    {
        &self.views[slot as usize]
    }

    /// The head of the record whose first slot a slot is, and the record's bytes; none where it is no first slot.
    pub(crate) fn record_at(
        &self,
        alloc: Global,
        slot: u32,
    ) -> Result<Option<(Head, Vec<u8>)>, AllocError>
        requires { slot < self.now.geometry.now.slots }
        ensures bytes { IfOk result (λ found. MatchOption found (kind_at self.now.geometry.now.slot_size
            self.now.geometry.now.slots self.now.bytes.now slot ≡ First → ⊥)
            (λ stored. IsRecordOf self.now.geometry.now.slot_size self.now.geometry.now.slots self.now.bytes.now slot
            stored.1.items)) }
        ensures first { IfOk result (λ found. IfSome found (λ _. kind_at self.now.geometry.now.slot_size
            self.now.geometry.now.slots self.now.bytes.now slot ≡ First)) }
        ensures head { IfOk result (λ found. IfSome found (λ stored. numbers_of stored.0
            ≡ (slot_at self.now.geometry.now.slot_size self.now.bytes.now slot).head)) }
    {
        let found = record_at(alloc, self.bytes, self.geometry, self.views, slot)?;
        match found {
            Some(bytes) => Ok(Some((self.view(slot).look.head, bytes))),
            None => Ok(None),
        }
    }
}

/// The further slots that a head names.
pub(crate) fn further_slots<'a>(geometry: &Geometry, head: &'a Head) -> &'a [u16]
    ensures are { result.now ≡ further_of (geometry.now.slot_size - 64) (numbers_of head.now) }
    ensures few { length result.now ≤ 3 }
{
    let further = parts_of(geometry, head.len).saturating_sub(1).min(3) as usize;
    &head.next[..further]
}
