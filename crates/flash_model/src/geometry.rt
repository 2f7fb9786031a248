// The geometry of a store, and the bytes of an erased one.
ghost use Rattle.std.specs.Prelude.{◌≡◌, ◌↔◌, ℕ, ◌+◌, ◌-◌, ◌*◌, ◌^◌, ◌≤◌, replicate, IsTrue, IsOk, IfOk};
ghost use Rattle.base_model.specs.Layout.{reach_of};
ghost use Rattle.flash_model.specs.Limits.{IsGeometry, IsSectorSize};

use std::alloc::{AllocError, Global};

const ERASED: u8 = 0xFF;

// What a slot has beside the room for a record.
const OVERHEAD: u64 = 64;

const SECTOR_SIZES: [u64; 8] = [256, 512, 1024, 2048, 4096, 8192, 16384, 32768];

const MAX_ROOM: u64 = 65536;

const MAX_RECORD: u64 = 65536;

const MAX_IMAGE: u64 = 1 << 26;

fn is_sector_size(sector: u64) -> bool
    ensures { IsTrue result ↔ IsSectorSize sector }
{
    SECTOR_SIZES.contains(&sector)
}

/// Sectors, sectors a slot or slots outside their limits.
#[derive(Clone, Copy, Debug, PartialEq, Eq)]
pub struct BadGeometry;

/// How a store divides its flash: `slots` slots of `per_slot` sectors of `sector` bytes each.
#[derive(Clone, Copy, Debug)]
pub struct Geometry {
    pub sector: u64,
    pub per_slot: u64,
    pub slots: u64,
    pub slot_size: u64,
    pub ghost limits: { IsGeometry sector per_slot slots },
    pub ghost product: { slot_size ≡ sector * per_slot },
    pub ghost least_sector: { 256 ≤ sector },
    pub ghost greatest_sector: { sector ≤ 32768 },
    pub ghost few_sectors: { 2 ≤ per_slot },
    pub ghost many_sectors: { per_slot ≤ 16 },
    pub ghost few_slots: { 2 ≤ slots },
    pub ghost many_slots: { slots ≤ 1024 },
    pub ghost least_slot: { 512 ≤ slot_size },
    pub ghost greatest_slot: { slot_size ≤ 65600 },
    pub ghost image: { slot_size * slots ≤ 2 ^ 26 },
}

impl Geometry {
    /// A geometry within the limits: the sector a power of two from 256 to 32,768 bytes, 2 to 16 sectors a slot, 2 to
    /// 1,024 slots, at most 64 MiB in all, and room for 128 to 65,536 bytes in a slot.
    pub fn new(sector: u64, per_slot: u64, slots: u64) -> Result<Geometry, BadGeometry>
        ensures within { IsOk result ↔ IsGeometry sector per_slot slots }
        ensures sector { IfOk result (λ geometry. geometry.sector ≡ sector) }
        ensures per_slot { IfOk result (λ geometry. geometry.per_slot ≡ per_slot) }
        ensures slots { IfOk result (λ geometry. geometry.slots ≡ slots) }
    {
        if !is_sector_size(sector) {
            return Err(BadGeometry);
        }
        if per_slot < 2 || per_slot > 16 {
            return Err(BadGeometry);
        }
        if slots < 2 || slots > 1024 {
            return Err(BadGeometry);
        }
        let slot_size = sector * per_slot;
        if slot_size > MAX_ROOM + OVERHEAD || slot_size * slots > MAX_IMAGE {
            return Err(BadGeometry);
        }
        Ok(Geometry {
            sector,
            per_slot,
            slots,
            slot_size,
        })
    }

    /// The size of a sector in bytes.
    pub fn sector(&self) -> u64
        ensures { result ≡ self.now.sector }
    {
        self.sector
    }

    /// The number of sectors of a slot.
    pub fn per_slot(&self) -> u64
        ensures { result ≡ self.now.per_slot }
    {
        self.per_slot
    }

    /// The number of slots.
    pub fn slots(&self) -> u64
        ensures { result ≡ self.now.slots }
    {
        self.slots
    }

    /// The size of a slot in bytes.
    pub fn slot_size(&self) -> u64
        ensures { result ≡ self.now.slot_size }
    {
        self.slot_size
    }

    /// The size of all slots in bytes.
    pub fn size(&self) -> u64
        ensures { result ≡ self.now.slot_size * self.now.slots }
    {
        self.slot_size * self.slots
    }

    /// The bytes of a record that a slot has room for.
    pub fn room(&self) -> u64
        ensures { result ≡ self.now.slot_size - 64 }
    {
        self.slot_size - OVERHEAD
    }

    /// The greatest length of a record in bytes: it may take up to four slots.
    #[tactic(auto, unfolding(base_model::specs::Layout::reach_of))]
    pub fn reach(&self) -> u64
        ensures { result ≡ reach_of (self.now.slot_size - 64) }
    {
        (4 * self.room()).min(MAX_RECORD)
    }
}

/// An image of erased bytes, as long as a store of this geometry.
pub fn erased(alloc: Global, geometry: &Geometry) -> Result<Vec<u8>, AllocError>
    ensures { IfOk result (λ image. image.items ≡ replicate (geometry.now.slot_size * geometry.now.slots) 0xFF) }
{
    let size = geometry.size();
    vec![in alloc; ERASED; size as usize]
}
