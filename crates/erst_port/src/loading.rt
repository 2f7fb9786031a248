// A device from the bytes as which one was saved.
ghost use Rattle.std.specs.Prelude.{◌≡◌, ◌≤◌, ◌↔◌, length, drop, IsTrue, Option, MatchOption, IfOk, IfErr};
ghost use Rattle.base_model.specs.Bytes.{number_at};
ghost use Rattle.flash_model.specs.Layouts.{layout_of};
ghost use Rattle.record_store.specs.Store.{StoreView, Idle};
ghost use Rattle.erst_device.specs.Registers.{seen};
ghost use Rattle.erst_device.specs.Statuses.{number_of};
ghost use Rattle.erst_device.specs.declared.registers.Operation.{Operation as AnyOperation};
ghost use Rattle.erst_device.specs.declared.status.CommandStatus.{CommandStatus as AnyStatus};
ghost use Rattle.erst_port.specs.Openings.{OpenedAs, OpenedOn, RefusesImage, RefusesOpening};
ghost use Rattle.erst_port.specs.PortState.{flash_of};
ghost use Rattle.erst_port.specs.Saved.{operation_number, head_size};
ghost use Rattle.erst_port.specs.Loaded.{addresses_in, AnswersAsSaved, AreOfLayout, HoldRegisters, LoadedBy, RefusesLoad, RefusesState, IsStateIn, Resumes, RefusesResume};

use crate::errors::LoadError;
use crate::port::Port;
use crate::saving::{HEAD, SIGNATURE, VERSION};
use crate::windows::Addresses;
use apei_bytes::{get_u32, get_u64};
use erst_device::{CommandStatus, Device, Operation, Registers, Running};
use flash_model::Geometry;
use std::alloc::Global;

/// What saved bytes hold before the log range.
#[derive(Clone, Copy)]
pub struct SavedState {
    pub addresses: Addresses,
    pub registers: Registers,
}

impl Port {
    /// Opens the port of a medium, whose first sector says its geometry, and goes on where the port that was saved stopped. All memory that
    /// it will ever have is taken here. As behind an opening, a few changes may be due.
    pub fn load(alloc: Global, medium: &[u8], saved: &[u8]) -> Result<Port, LoadError>
        ensures loaded { IfOk result (LoadedBy (OpenedOn medium.now) saved.now) }
        ensures equivalent { IfOk result (λ port. AnswersAsSaved (drop port.origin medium.now) saved.now port) }
        ensures refused { IfErr result (RefusesLoad (OpenedOn medium.now) (RefusesOpening medium.now) saved.now) }
    {
        let state = state_in(saved)?;
        match Port::open(alloc, medium, state.addresses) {
            Ok(port) => port.resume(saved, state.registers),
            Err(error) => Err(LoadError::Medium(error)),
        }
    }

    /// The same for a flash that is all of its medium: the caller says its geometry.
    pub fn load_raw(
        alloc: Global,
        image: &[u8],
        geometry: Geometry,
        saved: &[u8],
    ) -> Result<Port, LoadError>
        ensures loaded { IfOk result (LoadedBy (OpenedAs 0 geometry image.now) saved.now) }
        ensures equivalent { IfOk result (AnswersAsSaved image.now saved.now) }
        ensures refused { IfErr result (RefusesLoad (OpenedAs 0 geometry image.now)
            (RefusesImage geometry image.now) saved.now) }
    {
        let state = state_in(saved)?;
        match Port::open_raw(alloc, image, geometry, state.addresses) {
            Ok(port) => port.resume(saved, state.registers),
            Err(error) => Err(LoadError::Medium(error)),
        }
    }

    // The port with these registers, and the log range that is saved.
    fn resume(self, saved: &[u8], registers: Registers) -> Result<Port, LoadError>
        requires holds { IsStateIn saved.now self.addresses registers }
        requires idle { self.device.store.pending ≡ Idle }
        ensures resumed { IfOk result (Resumes saved.now self) }
        ensures counted { length (flash_of self).told.past ≡ (flash_of self).steps }
        ensures refused { IfErr result (RefusesResume saved.now self) }
    {
        self.changes_are_counted();
        let geometry = self.geometry();
        if !is_divided(saved, &geometry) {
            return Err(LoadError::Geometry);
        }
        let found = saved.len() as u64;
        let wanted = self.saved_len() as u64;
        if found != wanted {
            return Err(LoadError::Size { found, wanted });
        }
        let Port {
            device,
            range,
            table,
            addresses,
            origin,
            made,
        } = self;
        let device = Device::resume(device.into_store(), registers);
        let mut range = range;
        range.copy_from_slice(&saved[HEAD..]);
        Ok(Port {
            device,
            range,
            table,
            addresses,
            origin,
            made,
        })
    }
}

// Whether the flash of the saved device was divided so.
fn is_divided(saved: &[u8], geometry: &Geometry) -> bool
    requires { head_size ≤ length saved.now }
    ensures { IsTrue result ↔ AreOfLayout saved.now (layout_of geometry.now) }
{
    u64::from(get_u32(saved, 12)) == geometry.sector()
        && u64::from(get_u32(saved, 16)) == geometry.per_slot()
        && u64::from(get_u32(saved, 20)) == geometry.slots()
}

fn state_in(saved: &[u8]) -> Result<SavedState, LoadError>
    ensures state { IfOk result (λ state. IsStateIn saved.now state.addresses state.registers) }
    ensures refused { IfErr result (RefusesState saved.now) }
{
    if saved.len() < HEAD {
        return Err(LoadError::Foreign);
    }
    if get_u64(saved, 0) != SIGNATURE {
        return Err(LoadError::Foreign);
    }
    let version = get_u32(saved, 8);
    if version != VERSION {
        return Err(LoadError::Version { found: version });
    }
    let Some(operation) = operation_of(get_u32(saved, 24)) else {
        return Err(LoadError::Registers);
    };
    let Some(status) = status_of(get_u32(saved, 28)) else {
        return Err(LoadError::Registers);
    };
    let registers = registers_in(saved, operation, status);
    let addresses = addresses_in(saved);
    Ok(SavedState {
        addresses,
        registers,
    })
}

fn addresses_in(saved: &[u8]) -> Addresses
    requires { head_size ≤ length saved.now }
    ensures { result ≡ addresses_in saved.now }
{
    let registers = get_u64(saved, 32);
    let range = get_u64(saved, 40);
    Addresses { registers, range }
}

fn registers_in(saved: &[u8], operation: Option<Operation>, status: CommandStatus) -> Registers
    requires long { head_size ≤ length saved.now }
    requires operation { operation_number operation ≡ number_at saved.now 24 4 }
    requires status { number_of status ≡ number_at saved.now 28 4 }
    ensures holds { (store : StoreView) → HoldRegisters saved.now (seen result store) }
    ensures nothing { result.running ≡ Running.Nothing }
{
    let value = get_u64(saved, 48);
    let offset = get_u64(saved, 56);
    let id = get_u64(saved, 64);
    let cursor = get_u64(saved, 72);
    Registers {
        value,
        operation,
        offset,
        id,
        status,
        cursor,
        running: Running::Nothing,
    }
}

// The operation of a number, or none.
fn operation_of(number: u32) -> Option<Option<Operation>>
    ensures { MatchOption result ((operation : Option AnyOperation) → operation_number operation ≡ number → ⊥)
        (λ operation. operation_number operation ≡ number) }
{
    match number {
        0 => Some(None),
        1 => Some(Some(Operation::Write)),
        2 => Some(Some(Operation::Read)),
        3 => Some(Some(Operation::Clear)),
        4 => Some(Some(Operation::Dummy)),
        _ => None,
    }
}

// The command status of a number (ACPI 6.4, section 18.5.1).
fn status_of(number: u32) -> Option<CommandStatus>
    ensures { MatchOption result ((status : AnyStatus) → number_of status ≡ number → ⊥)
        (λ status. number_of status ≡ number) }
{
    match number {
        0 => Some(CommandStatus::Success),
        1 => Some(CommandStatus::NotEnoughSpace),
        2 => Some(CommandStatus::HardwareNotAvailable),
        3 => Some(CommandStatus::Failed),
        4 => Some(CommandStatus::RecordStoreEmpty),
        5 => Some(CommandStatus::RecordNotFound),
        _ => None,
    }
}
