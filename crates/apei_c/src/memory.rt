// How much memory a device takes.
ghost use Rattle.std.specs.Prelude.{◌≡◌, ◌-◌, ◌*◌, ◌<◌, ◌≤◌, ◌^◌};
ghost use Rattle.base_model.specs.Layout.{reach_of};
ghost use Rattle.apei_c.specs.declared.status.Status.{Status as AnyStatus};
ghost use Rattle.apei_c.specs.Statuses.{number_of};
ghost use Rattle.apei_c.specs.MemorySizes.{blocks_size, device_size, TellsMemory};

use crate::formats::geometry_of;
use crate::status::Status;
use crate::structs::MediumGeometry;
use erst_port::Port;
use flash_model::Geometry;
use std::mem::size_of;

const TABLE: u64 = 880;

// How much of a sector is erased: two numbers.
const SPAN: u64 = 16;

// A change in the log, and the byte that there is room for beside it.
const LOGGED: u64 = 33;

// The bytes that the log has room for beside one for each change.
const SPARE: u64 = 256;

// An identifier (8), the place of its record (20), the number of a free slot (4), the head and the tail mark of a slot (40).
const SLOT: u64 = 72;

// The blocks that an opening asks for, but for the device's own.
fn blocks_size(geometry: &Geometry) -> u64
    ensures value { result ≡ blocks_size geometry.now }
    ensures few { result < 2 ^ 32 }
{
    let size = geometry.size();
    let log = LOGGED * (size / 512).min(1024) + SPARE;
    TABLE + size + 2 * longest(geometry) + SPAN * sectors(geometry) + log + SLOT * geometry.slots()
}

// The bytes of the longest record.
#[tactic(auto, unfolding(base_model::specs::Layout::reach_of))]
fn longest(geometry: &Geometry) -> u64
    ensures value { result ≡ reach_of (geometry.now.slot_size - 64) }
    ensures few { result ≤ 65536 }
{
    geometry.reach()
}

// The sectors of the flash.
fn sectors(geometry: &Geometry) -> u64
    ensures value { result ≡ geometry.now.per_slot * geometry.now.slots }
    ensures few { result ≤ 16384 }
{
    geometry.per_slot() * geometry.slots()
}

fn device_size() -> u64
    ensures { result ≡ device_size }
{
    size_of::<Port>() as u64
}

fn tell_memory(numbers: &MediumGeometry, bytes: &mut u64) -> Status
    ensures { TellsMemory numbers.now bytes.old result bytes.new }
{
    let Some(geometry) = geometry_of(numbers) else {
        return Status::Geometry;
    };
    *bytes = device_size().saturating_add(blocks_size(&geometry));
    Status::Done
}

/// The bytes of the blocks that an opening of a device of this geometry asks for.
#[unsafe(no_mangle)]
pub extern "C" fn apei_c_memory_size(geometry: &MediumGeometry, bytes: &mut u64) -> u32
    ensures { (status : AnyStatus) × (result ≡ number_of status)
        × TellsMemory geometry.now bytes.old status bytes.new }
{
    tell_memory(geometry, bytes).number()
}
