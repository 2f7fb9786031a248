// How a handle gets a device, and how it loses it.
ghost use Rattle.std.specs.Prelude.{◌≡◌, IfOk, IfErr};
ghost use Rattle.erst_port.specs.Openings.{OpenedOn};
ghost use Rattle.apei_c.specs.Numbers.{addresses_of};
ghost use Rattle.apei_c.specs.Openings.{Opens, OpensRaw, Closes, MeansRaw, RefusedRaw, RefusedOpening};

use crate::formats::geometry_of;
use crate::handle::Handle;
use crate::numbers::addresses_of;
use crate::status::Status;
use crate::structs::{MediumGeometry, WindowAddresses};
use erst_port::Port;
use std::alloc::Global;

fn opened(alloc: Global, medium: &[u8], addresses: &WindowAddresses) -> Result<Box<Port>, Status>
    ensures opened { IfOk result (λ port. OpenedOn medium.now (addresses_of addresses.now) port.value) }
    ensures refused { IfErr result (RefusedOpening medium.now (addresses_of addresses.now)) }
{
    match Port::open(alloc, medium, addresses_of(addresses)) {
        Ok(port) => match Box::new(alloc, port) {
            Ok(port) => Ok(port),
            Err(_) => Err(Status::Memory),
        },
        Err(error) => Err(Status::of_opening(error)),
    }
}

fn opened_raw(
    alloc: Global,
    flash: &[u8],
    numbers: &MediumGeometry,
    addresses: &WindowAddresses,
) -> Result<Box<Port>, Status>
    ensures opened { IfOk result (λ port. MeansRaw numbers.now flash.now (addresses_of addresses.now) port.value) }
    ensures refused { IfErr result (RefusedRaw numbers.now flash.now (addresses_of addresses.now)) }
{
    let Some(geometry) = geometry_of(numbers) else {
        return Err(Status::Geometry);
    };
    match Port::open_raw(alloc, flash, geometry, addresses_of(addresses)) {
        Ok(port) => match Box::new(alloc, port) {
            Ok(port) => Ok(port),
            Err(_) => Err(Status::Memory),
        },
        Err(error) => Err(Status::of_opening(error)),
    }
}

/// Opens the device of a medium.
#[unsafe(no_mangle)]
pub extern "C" fn apei_c_erst_open(
    alloc: Global,
    erst: &mut Handle,
    medium: &[u8],
    addresses: &WindowAddresses,
) -> u32
    ensures { Opens medium.now (addresses_of addresses.now) erst.old.owner.port result erst.new.owner.port }
{
    if erst.is_open {
        return Status::Open.number();
    }
    match opened(alloc, medium, addresses) {
        Ok(port) => {
            erst.put(port);
            Status::Done.number()
        }
        Err(status) => status.number(),
    }
}

/// Opens the device of a flash that is all of its medium.
#[unsafe(no_mangle)]
pub extern "C" fn apei_c_erst_open_raw(
    alloc: Global,
    erst: &mut Handle,
    flash: &[u8],
    geometry: &MediumGeometry,
    addresses: &WindowAddresses,
) -> u32
    ensures { OpensRaw geometry.now flash.now (addresses_of addresses.now) erst.old.owner.port result
        erst.new.owner.port }
{
    if erst.is_open {
        return Status::Open.number();
    }
    match opened_raw(alloc, flash, geometry, addresses) {
        Ok(port) => {
            erst.put(port);
            Status::Done.number()
        }
        Err(status) => status.number(),
    }
}

/// Closes a device, and frees its memory.
#[unsafe(no_mangle)]
pub extern "C" fn apei_c_erst_close(alloc: Global, erst: &mut Handle) -> u32
    ensures { Closes erst.old.owner.port result erst.new.owner.port }
{
    match erst.take(alloc) {
        Some(port) => {
            drop(port);
            Status::Done.number()
        }
        None => Status::Closed.number(),
    }
}
