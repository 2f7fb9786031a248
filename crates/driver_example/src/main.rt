//! Keeps records on the flash of a driver of its own through `record_store` alone. What a firmware writes itself is
//! `DriverFlash`; the driver here is memory that counts the erases of each sector.
#![tactic(auto)]

ghost use Rattle.std.specs.Prelude.{◌≡◌};
ghost use Rattle.record_store.specs.Store.{Idle};

mod driver;
mod driver_flash;
mod failure;

use crate::driver::Driver;
use crate::driver_flash::DriverFlash;
use crate::failure::Failure;
use flash_model::Geometry;
use record_slots::RecordId;
use record_store::Store;
use std::process::ExitCode;

// The lengths of the records that are stored one in the place of the other.
const LENGTHS: [usize; 3] = [128, 200, 300];

// Each byte of them.
const FILL: u8 = 7;

fn main(rt: HostRuntime) -> ExitCode {
    match run(&rt) {
        Ok(()) => ExitCode::SUCCESS,
        Err(_) => ExitCode::FAILURE,
    }
}

// Opens a store on the driver, keeps records in it, and shows how often each sector was erased.
fn run(rt: &HostRuntime) -> Result<(), Failure> {
    let geometry = Geometry::new(256, 2, 4)?;
    let flash = DriverFlash::new(Driver::new(rt.alloc())?);
    match Store::attach(rt.alloc(), flash, geometry) {
        Ok(mut store) => {
            keep(rt, &mut store)?;
            show(rt, &store.into_flash())
        }
        Err(_) => Err(Failure::Store),
    }
}

// Stores the records under one identifier, reads the last one back, and clears it.
fn keep(rt: &HostRuntime, store: &mut Store<DriverFlash>) -> Result<(), Failure>
    requires { store.old.pending ≡ Idle }
{
    let Some(id) = RecordId::new(1) else {
        return Err(Failure::Store);
    };
    for length in LENGTHS {
        put(store, id, length)?;
        println!(rt; "wrote {length} bytes")?;
    }
    let mut out = [0; 512];
    let length = store.read(id, &mut out)?;
    let same = out[..length].iter().all(|byte| *byte == FILL);
    println!(rt; "read {length} bytes, each as written: {same}")?;
    store.clear(id)?;
    println!(rt; "cleared")?;
    Ok(())
}

// Stores a record of so many bytes.
fn put(store: &mut Store<DriverFlash>, id: RecordId, length: usize) -> Result<(), Failure>
    requires { store.old.pending ≡ Idle }
    ensures { store.new.pending ≡ Idle }
{
    let bytes = [FILL; 512];
    let reach = store.geometry().reach();
    if length < 128 || length > bytes.len() || length as u64 > reach {
        return Err(Failure::Length);
    }
    store.write(id, &bytes[..length])?;
    Ok(())
}

// Shows the erases of each sector.
fn show(rt: &HostRuntime, flash: &DriverFlash) -> Result<(), Failure> {
    for (sector, erases) in flash.driver.erases.iter().enumerate() {
        println!(rt; "sector {sector} erased {erases}")?;
    }
    Ok(())
}
