// A machine that is reached by its table, and a store that is called.
ghost use Rattle.std.specs.Prelude.{◌≡◌, IfSome};
ghost use Rattle.record_store.specs.Store.{Idle};

use apei_bytes::{put_u32, put_u64};
use apei_space::Space;
use apei_tables::{Place, Width};
use cper_frame::{ID_AT, LENGTH_AT};
use erst_client::Client;
use erst_entries::ErstTable;
use erst_interp::Budget;
use erst_machine::{Machine, SCRATCH};
use flash_model::{Geometry, SimFlash, erased};
use record_slots::RecordId;
use record_store::Store;
use std::alloc::Global;

/// The sectors of its flash.
const SECTOR: u32 = 4096;

const ID: u64 = 1;

// An erased flash.
fn flash(alloc: Global, geometry: &Geometry) -> Option<SimFlash> {
    let image = erased(alloc, geometry).ok()?;
    Some(SimFlash::new(alloc, SECTOR, image, None, Vec::new(alloc), Vec::new(alloc)))
}

// 32 slots of two sectors.
fn small() -> Option<Geometry> {
    Geometry::new(u64::from(SECTOR), 2, 32).ok()
}

// 1,024 slots of 16 sectors: 64 MiB.
fn large() -> Option<Geometry> {
    Geometry::new(u64::from(SECTOR), 16, 1024).ok()
}

// A machine over an erased flash.
fn machine(alloc: Global) -> Option<Machine<SimFlash>> {
    let geometry = small()?;
    let flash = flash(alloc, &geometry)?;
    Machine::boot(alloc, flash, geometry).ok()
}

// A store over an erased flash.
fn store(alloc: Global) -> Option<Store<SimFlash>>
    ensures { IfSome result (λ store. store.pending ≡ Idle) }
{
    let geometry = small()?;
    let flash = flash(alloc, &geometry)?;
    match Store::attach(alloc, flash, geometry) {
        Ok(store) => Some(store),
        Err(_) => None,
    }
}

// A record of 128 bytes: a header without sections.
fn record() -> [u8; 128] {
    let mut bytes = [0; 128];
    bytes[..10].copy_from_slice(b"CPER\x01\x01\xff\xff\xff\xff");
    put_u32(&mut bytes, 12, 2);
    put_u32(&mut bytes, LENGTH_AT, 128);
    put_u64(&mut bytes, ID_AT, ID);
    bytes
}

/// Writes a record of 128 bytes so many times by a client that runs the programs of the machine's own table. It answers how
/// many writes were well.
pub fn write_by_programs(alloc: Global, times: u64) -> Option<u64> {
    let mut machine = machine(alloc)?;
    let written = written(alloc, &mut machine, times);
    let _flash = machine.into_flash();
    written
}

fn written(alloc: Global, machine: &mut Machine<SimFlash>, times: u64) -> Option<u64> {
    let bytes = machine.erst_table(alloc).ok()?;
    let (table, _) = ErstTable::decode(alloc, &bytes).ok()?;
    let mut client = Client::attach(table, &mut Budget::new(64), machine).ok()?;
    let record = record();
    let mut done = 0u64;
    for _ in 0..times {
        let mut budget = Budget::new(client.enough());
        client.write(&record, &mut budget, machine).ok()?;
        done = done.wrapping_add(1);
    }
    Some(done)
}

/// Writes the same record as often by calls of a store.
#[tactic(auto, unfolding(base_model::specs::Layout::reach_of, base_model::specs::Layout::room_of))]
pub fn write_by_calls(alloc: Global, times: u64) -> Option<u64> {
    let mut store = store(alloc)?;
    let id = RecordId::new(ID)?;
    let record = record();
    let mut done = 0u64;
    for _ in 0..times {
        store.write(id, &record).ok()?;
        done = done.wrapping_add(1);
    }
    Some(done)
}

/// Writes eight bytes of the machine's plain memory and reads them, so many times. It answers their sum.
pub fn use_memory(alloc: Global, times: u64) -> Option<u64> {
    let mut machine = machine(alloc)?;
    let sum = sum_of(&mut machine, times);
    let _flash = machine.into_flash();
    sum
}

fn sum_of(machine: &mut Machine<SimFlash>, times: u64) -> Option<u64> {
    let mut sum = 0u64;
    for k in 0..times {
        let at = Place::Memory(SCRATCH + 8 * (k % 512));
        machine.write(at, Width::B64, sum).ok()?;
        let last = Place::Memory(SCRATCH + 8 * (k / 3 % 512));
        sum = sum
            .wrapping_add(1)
            .wrapping_add(machine.read(last, Width::B64).ok()?);
    }
    Some(sum)
}

/// Boots a machine over a flash of 64 MiB so many times. It answers how often it booted.
pub fn boot(alloc: Global, times: u64) -> Option<u64> {
    let mut flash = flash(alloc, &large()?)?;
    let mut booted = 0u64;
    for _ in 0..times {
        let geometry = large()?;
        flash = Machine::boot(alloc, flash, geometry).ok()?.into_flash();
        booted = booted.wrapping_add(1);
    }
    Some(booted)
}

/// Opens a store over as large a flash so many times. It answers how often it was opened.
pub fn open(alloc: Global, times: u64) -> Option<u64> {
    let mut flash = flash(alloc, &large()?)?;
    let mut opened = 0u64;
    for _ in 0..times {
        let geometry = large()?;
        flash = Store::attach(alloc, flash, geometry).ok()?.into_flash();
        opened = opened.wrapping_add(1);
    }
    Some(opened)
}
