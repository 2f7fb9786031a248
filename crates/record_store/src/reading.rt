// The reading of a record, part by part.
ghost use Rattle.std.specs.Prelude.{◌≡◌, ◌+◌, ◌-◌, ◌*◌, ◌<◌, ◌≤◌, ◌++◌, length, take, drop, OnOk, OnErr};
ghost use Rattle.base_model.specs.Flash.{OnlyReads};
ghost use Rattle.record_model.specs.Records.{slot_at, parts_of, part_len};
ghost use Rattle.record_slots.specs.Listed.{IsWithin};
ghost use Rattle.record_slots.specs.Slots.{Fits};
ghost use Rattle.record_store.specs.Reading.{slot_of_part, bytes_at};
ghost use Rattle.record_store.specs.Start.{ReadsTimes};

use crate::starting::put_front;
use flash_model::{Flash, FlashFailed, Geometry};
use record_slots::{SlotOf, part_len, parts_of, read_body};

/// Reads the record at a place, by way of a buffer, to the start of `out`, which stays as it is where the flash fails.
pub fn read_record<F: Flash>(
    flash: &mut F,
    geometry: &Geometry,
    place: SlotOf,
    buffer: &mut [u8],
    out: &mut [u8],
) -> Result<(), FlashFailed>
    requires fits { Fits geometry.now (F.state flash.old) }
    requires within { IsWithin geometry.now.slots geometry.now.slot_size place }
    requires buffer { place.len ≤ length buffer.old }
    requires room { place.len ≤ length out.old }
    ensures bytes { OnOk result (F.tells → out.new ≡ bytes_at geometry.now.slot_size (F.state flash.old).told.image
        place ++ drop place.len out.old) }
    ensures out { OnErr result (out.new ≡ out.old) }
    ensures stays { ReadsTimes F.tells (parts_of (geometry.now.slot_size - 64) place.len) (F.state flash.old)
        (F.state flash.new) result }
{
    let len = place.len as usize;
    read_parts(flash, geometry, place, &mut buffer[..len])?;
    put_front(out, &buffer[..len]);
    Ok(())
}

// Reads the parts of the record at a place into a buffer of its length.
fn read_parts<F: Flash>(
    flash: &mut F,
    geometry: &Geometry,
    place: SlotOf,
    buffer: &mut [u8],
) -> Result<(), FlashFailed>
    requires fits { Fits geometry.now (F.state flash.old) }
    requires within { IsWithin geometry.now.slots geometry.now.slot_size place }
    requires whole { length buffer.old ≡ place.len }
    ensures bytes { OnOk result (F.tells → buffer.new ≡ bytes_at geometry.now.slot_size (F.state flash.old).told.image
        place) }
    ensures stays { ReadsTimes F.tells (parts_of (geometry.now.slot_size - 64) place.len) (F.state flash.old)
        (F.state flash.new) result }
{
    for number in 0..parts_of(geometry, place.len) {
        read_part(flash, geometry, place, number, buffer)?;
    }
    Ok(())
}

// Reads a part into its place.
fn read_part<F: Flash>(
    flash: &mut F,
    geometry: &Geometry,
    place: SlotOf,
    number: u32,
    buffer: &mut [u8],
) -> Result<(), FlashFailed>
    requires fits { Fits geometry.now (F.state flash.old) }
    requires within { IsWithin geometry.now.slots geometry.now.slot_size place }
    requires number { number < parts_of (geometry.now.slot_size - 64) place.len }
    requires whole { length buffer.old ≡ place.len }
    ensures bytes { OnOk result (F.tells → take ((number + 1) * (geometry.now.slot_size - 64)) buffer.new
        ≡ take (number * (geometry.now.slot_size - 64)) buffer.old ++ take
        (part_len (geometry.now.slot_size - 64) place.len number)
        (slot_at geometry.now.slot_size (F.state flash.old).told.image (slot_of_part place number)).body) }
    ensures stays { OnlyReads F.tells 1 (F.state flash.old) (F.state flash.new) result }
{
    let slot = part_slot(geometry, place, number);
    let start = number as usize * geometry.room() as usize;
    let len = part_len(geometry, place.len, number) as usize;
    read_body(flash, geometry, slot, &mut buffer[start..start + len])
}

// The slot of a part.
fn part_slot(geometry: &Geometry, place: SlotOf, number: u32) -> u32
    requires within { IsWithin geometry.now.slots geometry.now.slot_size place }
    requires number { number < parts_of (geometry.now.slot_size - 64) place.len }
    ensures slot { result ≡ slot_of_part place number }
    ensures within { result < geometry.now.slots }
{
    if number == 0 {
        place.slot
    } else {
        u32::from(place.next[number as usize - 1])
    }
}
