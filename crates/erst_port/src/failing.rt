// A medium that fails a change.
ghost use Rattle.std.specs.Prelude.{◌≡◌, ◌↔◌, ◌+◌, IsTrue, IfOk, IfErr};
ghost use Rattle.flash_model.specs.Layouts.{layout_of};
ghost use Rattle.record_store.specs.Store.{StoreView};
ghost use Rattle.erst_device.specs.Registers.{seen};
ghost use Rattle.erst_port.specs.Failures.{DividesAs, ended_with, Fails, IsItsGeometry, OpenedAnew, RefusesAnew};

use crate::errors::{OpenError, ReopenError};
use crate::parts::NOTHING;
use crate::port::Port;
use erst_device::{CommandStatus, Device, Registers, Running};
use flash_model::Geometry;
use image_survey::geometry_of;
use std::alloc::Global;

impl Port {
    /// The medium failed a change that was due: the port goes on over the bytes that the medium holds now. Its records are those of the medium.
    /// What was begun has ended, and until the next BEGIN action GET_COMMAND_STATUS tells FAILED (ACPI 6.4, section 18.5.1). The other registers,
    /// the addresses and the log range stay. As after an opening, a few changes may be due. It takes the memory of an opening, and gives back
    /// what the device had before.
    pub fn failed(&mut self, alloc: Global, medium: &[u8]) -> Result<(), ReopenError>
        ensures { Fails medium.now self.old result self.new }
    {
        let opened = self.opened_anew(alloc, medium)?;
        let registers = ended(&self.device.registers());
        let Port {
            device,
            range: _,
            table: _,
            addresses: _,
            origin: _,
            made: _,
        } = opened;
        self.device = Device::resume(device.into_store(), registers);
        self.made = NOTHING;
        Ok(())
    }

    // A port over the medium, as this one was opened.
    fn opened_anew(&self, alloc: Global, medium: &[u8]) -> Result<Port, ReopenError>
        ensures opened { IfOk result (OpenedAnew self.now medium.now) }
        ensures refused { IfErr result (RefusesAnew self.now medium.now) }
    {
        let geometry = self.geometry_on(medium)?;
        let found = medium.len() as u64;
        let wanted = self.origin as u64 + geometry.size();
        if found != wanted {
            return Err(ReopenError::Medium(OpenError::Size { found, wanted }));
        }
        match Port::behind(
            alloc,
            self.origin,
            &medium[self.origin..],
            geometry,
            self.addresses,
        ) {
            Ok(port) => Ok(port),
            Err(error) => Err(ReopenError::Medium(error)),
        }
    }

    // The geometry of the port, where the medium says no other.
    fn geometry_on(&self, medium: &[u8]) -> Result<Geometry, ReopenError>
        ensures its { IfOk result (IsItsGeometry self.now medium.now) }
        ensures refused { IfErr result (RefusesAnew self.now medium.now) }
    {
        if self.origin == 0 {
            return Ok(self.geometry());
        }
        let geometry = match geometry_of(medium) {
            Ok(geometry) => geometry,
            Err(why) => return Err(ReopenError::Medium(why.into())),
        };
        if !are_alike(&geometry, &self.geometry()) {
            return Err(ReopenError::Geometry);
        }
        Ok(geometry)
    }
}

// Whether one geometry divides a flash as the other does.
fn are_alike(one: &Geometry, other: &Geometry) -> bool
    ensures { IsTrue result ↔ DividesAs one.now (layout_of other.now) }
{
    one.sector() == other.sector()
        && one.per_slot() == other.per_slot()
        && one.slots() == other.slots()
}

// The registers with what was begun ended by FAILED.
fn ended(registers: &Registers) -> Registers
    ensures ended { (before after : StoreView) → seen result after ≡ ended_with after (seen registers.now before) }
    ensures nothing { result.running ≡ Running.Nothing }
{
    Registers {
        value: registers.value,
        operation: None,
        offset: registers.offset,
        id: registers.id,
        status: CommandStatus::Failed,
        cursor: registers.cursor,
        running: Running::Nothing,
    }
}
