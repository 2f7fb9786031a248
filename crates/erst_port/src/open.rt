// How a port is opened.
ghost use Rattle.std.specs.Prelude.{◌≡◌, ◌≤◌, ◌+◌, length, IfOk, IfErr};
ghost use Rattle.flash_model.specs.Layouts.{Fits};
ghost use Rattle.record_model.specs.Records.{second_copies};
ghost use Rattle.record_store.specs.Store.{IsOpened, IsFlashOf, IsSettled, KeepsRecordsOf};
ghost use Rattle.erst_device.specs.DeviceState.{at_first};
ghost use Rattle.erst_port.specs.States.{state_of, first_state};
ghost use Rattle.erst_port.specs.Dues.{IsLogged};
ghost use Rattle.image_survey.specs.Headers.{flash_size};
ghost use Rattle.erst_port.specs.Openings.{OpenedAs, OpenedOn, RefusesImage, RefusesOpening};

use crate::MirrorFlash;
use crate::errors::OpenError;
use crate::memory::{blank, copied};
use crate::parts::NOTHING;
use crate::port::Port;
use crate::table::table_at;
use crate::windows::Addresses;
use erst_device::Device;
use flash_model::Geometry;
use image_survey::geometry_of;
use record_store::{ScanError, Store};
use std::alloc::{AllocError, Global};

impl Port {
    /// Opens the port of a medium, whose first sector says its geometry. All memory that it will ever have is taken here. A few changes may be
    /// due behind it: records that power lost in a replacement had left twice.
    pub fn open(alloc: Global, medium: &[u8], addresses: Addresses) -> Result<Port, OpenError>
        ensures opened { IfOk result (OpenedOn medium.now addresses) }
        ensures refused { IfErr result (RefusesOpening medium.now addresses) }
    {
        let geometry = match geometry_of(medium) {
            Ok(geometry) => geometry,
            Err(why) => return Err(why.into()),
        };
        let origin = geometry.sector() as usize;
        Port::behind(alloc, origin, &medium[origin..], geometry, addresses)
    }

    /// Opens the port of a flash that is all of its medium: the caller says its geometry.
    pub fn open_raw(
        alloc: Global,
        image: &[u8],
        geometry: Geometry,
        addresses: Addresses,
    ) -> Result<Port, OpenError>
        ensures opened { IfOk result (OpenedAs 0 geometry image.now addresses) }
        ensures refused { IfErr result (RefusesImage geometry image.now addresses) }
    {
        Port::behind(alloc, 0, image, geometry, addresses)
    }

    // Opens the port of the flash behind so many bytes of its medium.
    pub(crate) fn behind(
        alloc: Global,
        origin: usize,
        image: &[u8],
        geometry: Geometry,
        addresses: Addresses,
    ) -> Result<Port, OpenError>
        requires { origin ≤ 32768 }
        ensures opened { IfOk result (OpenedAs origin geometry image.now addresses) }
        ensures refused { IfErr result (RefusesImage geometry image.now addresses) }
    {
        let found = image.len() as u64;
        let wanted = geometry.size();
        if found != wanted {
            return Err(OpenError::Size { found, wanted });
        }
        if !addresses.are_apart(geometry.reach()) {
            return Err(OpenError::Addresses);
        }
        let Ok(table) = table_at(alloc, addresses.registers) else {
            return Err(OpenError::Memory);
        };
        let Ok(range) = blank(alloc, geometry.reach() as usize) else {
            return Err(OpenError::Memory);
        };
        let Ok(device) = device_of(alloc, image, geometry) else {
            return Err(OpenError::Memory);
        };
        Ok(Port {
            device,
            range,
            table,
            addresses,
            origin,
            made: NOTHING,
        })
    }
}

// The device over a flash of these bytes.
fn device_of(
    alloc: Global,
    image: &[u8],
    geometry: Geometry,
) -> Result<Device<MirrorFlash>, AllocError>
    requires { length image.now ≡ flash_size geometry }
    ensures opened { IfOk result (λ device. IsOpened geometry device.store) }
    ensures first { IfOk result (λ device. device ≡ at_first device.store) }
    ensures settled { IfOk result (λ device. IsSettled device.store) }
    ensures flash { IfOk result (λ device. IsFlashOf (first_state image.now geometry.sector) device.store.flash) }
    ensures steps { IfOk result (λ device. device.store.flash.steps
        ≡ second_copies geometry.slot_size geometry.slots image.now) }
    ensures kept { IfOk result (λ device. KeepsRecordsOf geometry (first_state image.now geometry.sector)
        device.store.flash) }
    ensures known { IfOk result (λ device. IsLogged device.store.flash) }
{
    let copy = copied(alloc, image)?;
    let flash = MirrorFlash::new(alloc, geometry.sector() as u32, copy)?;
    let store = store_of(alloc, flash, geometry)?;
    Ok(Device::new(store))
}

// The store of a flash that has its geometry's size, and made no change yet: it fails none.
fn store_of(
    alloc: Global,
    flash: MirrorFlash,
    geometry: Geometry,
) -> Result<Store<MirrorFlash>, AllocError>
    requires fits { Fits geometry (state_of flash) }
    requires first { state_of flash ≡ first_state (state_of flash).told.image geometry.sector }
    ensures opened { IfOk result (λ store. IsOpened geometry store) }
    ensures settled { IfOk result (λ store. IsSettled store) }
    ensures flash { IfOk result (λ store. IsFlashOf (state_of flash) store.flash) }
    ensures steps { IfOk result (λ store. store.flash.steps
        ≡ (state_of flash).steps + second_copies geometry.slot_size geometry.slots (state_of flash).told.image) }
    ensures kept { IfOk result (λ store. KeepsRecordsOf geometry (state_of flash) store.flash) }
    ensures known { IfOk result (λ store. IsLogged store.flash) }
{
    match Store::attach(alloc, flash, geometry) {
        Ok(store) => Ok(store),
        Err(refused) => match refused.why {
            ScanError::Memory => Err(AllocError),
            ScanError::Flash => {
                refused.flash.fails_last();
                unreachable!()
            }
            ScanError::Size {
                found: _,
                sector: _,
            } => unreachable!(),
        },
    }
}
