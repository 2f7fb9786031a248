// The look at a slot, and the reading of its body.
ghost use Rattle.std.specs.Prelude.{◌≡◌, ◌+◌, ◌-◌, ◌*◌, ◌<◌, ◌≤◌, length, IfOk, OnOk};
ghost use Rattle.base_model.specs.Bytes.{part};
ghost use Rattle.base_model.specs.Flash.{OnlyReads};
ghost use Rattle.record_model.specs.Records.{head_at, tail_at};
ghost use Rattle.record_slots.specs.Slots.{Fits, numbers_of};

use crate::Head;
use crate::places::{BODY_AT, place_of};
use flash_model::{Flash, FlashFailed, Geometry};

/// The head and the tail mark of a slot, by one read of each.
#[inline(always)]
pub fn look<F: Flash>(
    flash: &mut F,
    geometry: &Geometry,
    slot: u32,
) -> Result<(Head, u8), FlashFailed>
    requires fits { Fits geometry.now (F.state flash.old) }
    requires within { slot < geometry.now.slots }

    ensures head { IfOk result (λ found. F.tells →
        numbers_of found.0 ≡ head_at (F.state flash.old).told.image (slot * geometry.now.slot_size)) }
    ensures tail { IfOk result (λ found. F.tells →
        found.1 ≡ tail_at (F.state flash.old).told.image (slot * geometry.now.slot_size) geometry.now.slot_size) }
    ensures stays { OnlyReads F.tells 2 (F.state flash.old) (F.state flash.new) result }
{
    let place = place_of(geometry, slot);
    let mut head = [0u8; 32];
    flash.read(place, &mut head)?;
    let mut tail = [0u8; 1];
    flash.read(place + (geometry.slot_size - 1), &mut tail)?;
    Ok((Head::decode(&head), tail[0]))
}

/// Reads the first bytes of a slot's body, by one read. After a failure `buf` may hold anything.
pub fn read_body<F: Flash>(
    flash: &mut F,
    geometry: &Geometry,
    slot: u32,
    buf: &mut [u8],
) -> Result<(), FlashFailed>
    requires fits { Fits geometry.now (F.state flash.old) }
    requires within { slot < geometry.now.slots }
    requires room { length buf.old ≤ geometry.now.slot_size - 64 }

    ensures bytes { OnOk result (F.tells → buf.new
        ≡ part (F.state flash.old).told.image (slot * geometry.now.slot_size + 32) (length buf.old)) }
    ensures stays { OnlyReads F.tells 1 (F.state flash.old) (F.state flash.new) result }
{
    let place = place_of(geometry, slot);
    flash.read(place + BODY_AT, buf)
}
