// How a device goes on elsewhere: saved as bytes, and loaded from them over the same medium.
ghost use Rattle.std.specs.Prelude.{◌≡◌, IfOk, IfErr};
ghost use Rattle.apei_c.specs.Handles.{LooksAt};
ghost use Rattle.apei_c.specs.Saving.{SavesBytes, Loads, LoadsRaw, LoadedOn, LoadedRaw, RefusedLoad, RefusedLoadRaw, status_of_saving, status_of_loading};

use crate::formats::geometry_of;
use crate::handle::Handle;
use crate::status::Status;
use crate::structs::MediumGeometry;
use erst_port::{LoadError, Port, SaveError};
use std::alloc::Global;

impl Status {
    // That of a refused load.
    fn of_loading(error: LoadError) -> Status
        ensures { result ≡ status_of_loading error }
    {
        match error {
            LoadError::Foreign => Status::Unsaved,
            LoadError::Version { found: _ } => Status::SavedVersion,
            LoadError::Registers => Status::Unsaved,
            LoadError::Medium(error) => Status::of_opening(error),
            LoadError::Geometry => Status::SavedFlash,
            LoadError::Size {
                found: _,
                wanted: _,
            } => Status::Unsaved,
        }
    }
}

fn save(port: &Port, bytes: &mut [u8], size: &mut u64) -> Status
    ensures { SavesBytes bytes.old size.old port.now result bytes.new size.new }
{
    match port.save(bytes) {
        Ok(len) => {
            *size = len as u64;
            Status::Done
        }
        Err(SaveError::Busy) => Status::Busy,
        Err(SaveError::Due) => Status::Due,
        Err(SaveError::Short { need }) => {
            *size = need as u64;
            Status::Short
        }
    }
}

fn loaded(alloc: Global, medium: &[u8], saved: &[u8]) -> Result<Box<Port>, Status>
    ensures loaded { IfOk result (λ port. LoadedOn medium.now saved.now port.value) }
    ensures refused { IfErr result (RefusedLoad medium.now saved.now) }
{
    match Port::load(alloc, medium, saved) {
        Ok(port) => match Box::new(alloc, port) {
            Ok(port) => Ok(port),
            Err(_) => Err(Status::Memory),
        },
        Err(error) => Err(Status::of_loading(error)),
    }
}

fn loaded_raw(
    alloc: Global,
    flash: &[u8],
    numbers: &MediumGeometry,
    saved: &[u8],
) -> Result<Box<Port>, Status>
    ensures loaded { IfOk result (λ port. LoadedRaw numbers.now flash.now saved.now port.value) }
    ensures refused { IfErr result (RefusedLoadRaw numbers.now flash.now saved.now) }
{
    let Some(geometry) = geometry_of(numbers) else {
        return Err(Status::Geometry);
    };
    match Port::load_raw(alloc, flash, geometry, saved) {
        Ok(port) => match Box::new(alloc, port) {
            Ok(port) => Ok(port),
            Err(_) => Err(Status::Memory),
        },
        Err(error) => Err(Status::of_loading(error)),
    }
}

/// Saves a device as bytes.
#[unsafe(no_mangle)]
pub extern "C" fn apei_c_erst_save(erst: &mut Handle, bytes: &mut [u8], size: &mut u64) -> u32
    ensures { LooksAt erst.old.owner.port result erst.new.owner.port
        ((bytes.new ≡ bytes.old) × (size.new ≡ size.old))
        (λ port status. SavesBytes bytes.old size.old port status bytes.new size.new) }
{
    let Some(port) = erst.port() else {
        return Status::Closed.number();
    };
    save(port, bytes, size).number()
}

/// Opens the device of a medium, and goes on where the one that was saved stopped.
#[unsafe(no_mangle)]
pub extern "C" fn apei_c_erst_load(
    alloc: Global,
    erst: &mut Handle,
    medium: &[u8],
    saved: &[u8],
) -> u32
    ensures { Loads medium.now saved.now erst.old.owner.port result erst.new.owner.port }
{
    if erst.is_open {
        return Status::Open.number();
    }
    match loaded(alloc, medium, saved) {
        Ok(port) => {
            erst.put(port);
            Status::Done.number()
        }
        Err(status) => status.number(),
    }
}

/// The same for a flash that is all of its medium.
#[unsafe(no_mangle)]
pub extern "C" fn apei_c_erst_load_raw(
    alloc: Global,
    erst: &mut Handle,
    flash: &[u8],
    geometry: &MediumGeometry,
    saved: &[u8],
) -> u32
    ensures { LoadsRaw geometry.now flash.now saved.now erst.old.owner.port result erst.new.owner.port }
{
    if erst.is_open {
        return Status::Open.number();
    }
    match loaded_raw(alloc, flash, geometry, saved) {
        Ok(port) => {
            erst.put(port);
            Status::Done.number()
        }
        Err(status) => status.number(),
    }
}
