// The changes of a slot, one a call. Each makes at most the one change of the range that its clauses name.
ghost use Rattle.std.specs.Prelude.{◌≡◌, ◌+◌, ◌-◌, ◌*◌, ◌<◌, ◌≤◌, [], ◌∷◌, length, take, replicate, OnOk};
ghost use Rattle.base_model.specs.Bytes.{number_at, part, put_at};
ghost use Rattle.base_model.specs.Flash.{AsksChange, IsErased};
ghost use Rattle.record_model.specs.Records.{head_fields, head_bytes, tail_at, gate_open, kill_mark, tail_mark};
ghost use Rattle.record_slots.specs.Parts.{part_numbers};
ghost use Rattle.record_slots.specs.Slots.{Fits, numbers_of};

use crate::head::{GATE_OPEN, KILL_MARK, TAIL_MARK};
use crate::places::{BODY_AT, place_of, sector_of};
use crate::{Head, PartHead};
use flash_model::{Flash, FlashFailed, Geometry};

// Where the fields of a head begin that are programmed with it, and where they end.
const FIELDS_AT: usize = 2;

const FIELDS_END: usize = 26;

// Where the fields of the head of a further slot end.
const PART_FIELDS_END: usize = 24;

const KILL_AT: u64 = 1;

const PIECE_LEN: u64 = 256;

/// Erases one sector of a slot.
pub fn erase_one<F: Flash>(
    flash: &mut F,
    geometry: &Geometry,
    slot: u32,
    sector: u32,
) -> Result<(), FlashFailed>
    requires fits { Fits geometry.now (F.state flash.old) }
    requires slot { slot < geometry.now.slots }
    requires sector { sector < geometry.now.per_slot }

    ensures bytes { OnOk result (F.tells → (F.state flash.new).told.image
        ≡ put_at (F.state flash.old).told.image (slot * geometry.now.slot_size + sector * geometry.now.sector)
        (replicate geometry.now.sector 0xFF)) }
    ensures stands { OnOk result (F.tells → IsErased (F.state flash.new).told.image
        (slot * geometry.now.slot_size + sector * geometry.now.sector) geometry.now.sector) }
    ensures change { AsksChange F.tells (slot * geometry.now.slot_size + sector * geometry.now.sector)
        geometry.now.sector (F.state flash.old) (F.state flash.new) result }
{
    flash.erase(sector_of(geometry, slot, sector))
}

/// Programs format, generation, identifier, length and further slots of a head, bytes 2 to 25 of a slot. Its gate stays closed.
pub fn put_head<F: Flash>(
    flash: &mut F,
    geometry: &Geometry,
    slot: u32,
    head: &Head,
) -> Result<(), FlashFailed>
    requires fits { Fits geometry.now (F.state flash.old) }
    requires slot { slot < geometry.now.slots }
    requires erased { F.tells → IsErased (F.state flash.old).told.image (slot * geometry.now.slot_size + 2) 24 }

    ensures bytes { OnOk result (F.tells → (F.state flash.new).told.image
        ≡ put_at (F.state flash.old).told.image (slot * geometry.now.slot_size + 2)
        (head_fields (numbers_of head.now))) }
    ensures stands { OnOk result (F.tells → part (F.state flash.new).told.image (slot * geometry.now.slot_size + 2) 24
        ≡ head_fields (numbers_of head.now)) }
    ensures change { AsksChange F.tells (slot * geometry.now.slot_size + 2) 24 (F.state flash.old)
        (F.state flash.new) result }
{
    let bytes = head.encode();
    let place = place_of(geometry, slot);
    flash.program(place + 2, &bytes[FIELDS_AT..FIELDS_END])
}

/// Programs the head of a further slot, bytes 0 to 23 of a slot.
pub fn put_part_head<F: Flash>(
    flash: &mut F,
    geometry: &Geometry,
    slot: u32,
    head: &PartHead,
) -> Result<(), FlashFailed>
    requires fits { Fits geometry.now (F.state flash.old) }
    requires slot { slot < geometry.now.slots }
    requires erased { F.tells → IsErased (F.state flash.old).told.image (slot * geometry.now.slot_size) 24 }

    ensures bytes { OnOk result (F.tells → (F.state flash.new).told.image
        ≡ put_at (F.state flash.old).told.image (slot * geometry.now.slot_size)
        (take 24 (head_bytes (part_numbers head.now)))) }
    ensures stands { OnOk result (F.tells → part (F.state flash.new).told.image (slot * geometry.now.slot_size) 24
        ≡ take 24 (head_bytes (part_numbers head.now))) }
    ensures change { AsksChange F.tells (slot * geometry.now.slot_size) 24 (F.state flash.old)
        (F.state flash.new) result }
{
    let bytes = head.head().encode();
    let place = place_of(geometry, slot);
    flash.program(place, &bytes[..PART_FIELDS_END])
}

/// Programs piece number `piece` of a body, up to 256 bytes from byte 32 + 256 * piece of a slot on.
pub fn put_piece<F: Flash>(
    flash: &mut F,
    geometry: &Geometry,
    slot: u32,
    piece: u32,
    bytes: &[u8],
) -> Result<(), FlashFailed>
    requires fits { Fits geometry.now (F.state flash.old) }
    requires slot { slot < geometry.now.slots }
    requires some { 0 < length bytes.now }
    requires few { length bytes.now ≤ 256 }
    requires room { 256 * piece + length bytes.now ≤ geometry.now.slot_size - 64 }
    requires erased { F.tells → IsErased (F.state flash.old).told.image
        (slot * geometry.now.slot_size + 32 + 256 * piece) (length bytes.now) }

    ensures bytes { OnOk result (F.tells → (F.state flash.new).told.image
        ≡ put_at (F.state flash.old).told.image (slot * geometry.now.slot_size + 32 + 256 * piece) bytes.now) }
    ensures stands { OnOk result (F.tells → part (F.state flash.new).told.image
        (slot * geometry.now.slot_size + 32 + 256 * piece) (length bytes.now) ≡ bytes.now) }
    ensures change { AsksChange F.tells (slot * geometry.now.slot_size + 32 + 256 * piece) (length bytes.now)
        (F.state flash.old) (F.state flash.new) result }
{
    let place = place_of(geometry, slot);
    flash.program(place + BODY_AT + PIECE_LEN * u64::from(piece), bytes)
}

/// Programs the tail mark, the last byte of a slot.
pub fn put_tail<F: Flash>(flash: &mut F, geometry: &Geometry, slot: u32) -> Result<(), FlashFailed>
    requires fits { Fits geometry.now (F.state flash.old) }
    requires slot { slot < geometry.now.slots }
    requires erased { F.tells → IsErased (F.state flash.old).told.image
        (slot * geometry.now.slot_size + (geometry.now.slot_size - 1)) 1 }

    ensures bytes { OnOk result (F.tells → (F.state flash.new).told.image
        ≡ put_at (F.state flash.old).told.image (slot * geometry.now.slot_size + (geometry.now.slot_size - 1))
        (tail_mark ∷ [])) }
    ensures stands { OnOk result (F.tells → tail_at (F.state flash.new).told.image (slot * geometry.now.slot_size)
        geometry.now.slot_size ≡ tail_mark) }
    ensures change { AsksChange F.tells (slot * geometry.now.slot_size + (geometry.now.slot_size - 1)) 1
        (F.state flash.old) (F.state flash.new) result }
{
    let place = place_of(geometry, slot);
    flash.program(place + (geometry.slot_size - 1), &[TAIL_MARK])
}

/// Opens the gate, the first byte of a slot.
pub fn open_gate<F: Flash>(flash: &mut F, geometry: &Geometry, slot: u32) -> Result<(), FlashFailed>
    requires fits { Fits geometry.now (F.state flash.old) }
    requires slot { slot < geometry.now.slots }
    requires erased { F.tells → IsErased (F.state flash.old).told.image (slot * geometry.now.slot_size) 1 }

    ensures bytes { OnOk result (F.tells → (F.state flash.new).told.image
        ≡ put_at (F.state flash.old).told.image (slot * geometry.now.slot_size) (gate_open ∷ [])) }
    ensures stands { OnOk result (F.tells → number_at (F.state flash.new).told.image (slot * geometry.now.slot_size) 1
        ≡ gate_open) }
    ensures change { AsksChange F.tells (slot * geometry.now.slot_size) 1 (F.state flash.old)
        (F.state flash.new) result }
{
    let place = place_of(geometry, slot);
    flash.program(place, &[GATE_OPEN])
}

/// Kills a slot: programs its second byte to the kill mark, so that it holds no record from then on.
pub fn kill<F: Flash>(flash: &mut F, geometry: &Geometry, slot: u32) -> Result<(), FlashFailed>
    requires fits { Fits geometry.now (F.state flash.old) }
    requires slot { slot < geometry.now.slots }
    requires erased { F.tells → IsErased (F.state flash.old).told.image (slot * geometry.now.slot_size + 1) 1 }

    ensures bytes { OnOk result (F.tells → (F.state flash.new).told.image
        ≡ put_at (F.state flash.old).told.image (slot * geometry.now.slot_size + 1) (kill_mark ∷ [])) }
    ensures stands { OnOk result (F.tells → number_at (F.state flash.new).told.image
        (slot * geometry.now.slot_size + 1) 1 ≡ kill_mark) }
    ensures change { AsksChange F.tells (slot * geometry.now.slot_size + 1) 1 (F.state flash.old)
        (F.state flash.new) result }
{
    let place = place_of(geometry, slot);
    flash.program(place + KILL_AT, &[KILL_MARK])
}
