// A device as bytes.
ghost use Rattle.std.specs.Prelude.{◌≡◌};
ghost use Rattle.flash_model.specs.Layouts.{layout_of};
ghost use Rattle.record_store.specs.Store.{StoreView};
ghost use Rattle.erst_device.specs.Registers.{seen};
ghost use Rattle.erst_port.specs.Saved.{operation_number, saved_head, saved_size, HasSmallNumbers, Saves};

use crate::errors::SaveError;
use crate::port::Port;
use crate::windows::Addresses;
use apei_bytes::{write_bytes, write_u32, write_u64};
use erst_device::{Operation, Registers, Running};
use flash_model::Geometry;

/// "APEISAVE".
pub(crate) const SIGNATURE: u64 = 0x4556_4153_4945_5041;

pub(crate) const VERSION: u32 = 1;

/// The bytes before the log range.
pub(crate) const HEAD: usize = 80;

impl Port {
    /// How many bytes the device is saved as.
    pub fn saved_len(&self) -> usize
        ensures { result ≡ saved_size self.now }
    {
        HEAD + self.range.len()
    }

    /// Puts the registers, the addresses of the windows and the log range at the front of `out`, and answers how many bytes they are. The
    /// records stay in the flash. `Busy` while an execution runs, `Due` while a change is due.
    pub fn save(&self, out: &mut [u8]) -> Result<usize, SaveError>
        ensures { Saves self.now out.old result out.new }
    {
        let registers = self.device.registers();
        let Running::Nothing = registers.running else {
            return Err(SaveError::Busy);
        };
        if self.is_due() {
            return Err(SaveError::Due);
        }
        let need = self.saved_len();
        if out.len() < need {
            return Err(SaveError::Short { need });
        }
        let geometry = self.geometry();
        let head = saved_head(&geometry, &self.addresses, &registers);
        let end = write_bytes(out, 0, &head);
        Ok(write_bytes(out, end, &self.range))
    }
}

fn operation_number(operation: Option<Operation>) -> u32
    ensures { result ≡ operation_number operation }
{
    match operation {
        None => 0,
        Some(Operation::Write) => 1,
        Some(Operation::Read) => 2,
        Some(Operation::Clear) => 3,
        Some(Operation::Dummy) => 4,
    }
}

fn saved_head(geometry: &Geometry, addresses: &Addresses, registers: &Registers) -> [u8; HEAD]
    ensures form { (store : StoreView) → result
        ≡ saved_head (layout_of geometry.now) addresses.now (seen registers.now store) }
    ensures small { (store : StoreView) → HasSmallNumbers (layout_of geometry.now) addresses.now
        (seen registers.now store) }
{
    let mut head = [0; HEAD];
    let version = write_u64(&mut head, 0, SIGNATURE);
    let sector = write_u32(&mut head, version, VERSION);
    let per_slot = write_u32(&mut head, sector, geometry.sector() as u32);
    let slots = write_u32(&mut head, per_slot, geometry.per_slot() as u32);
    let operation = write_u32(&mut head, slots, geometry.slots() as u32);
    let status = write_u32(&mut head, operation, operation_number(registers.operation));
    let base = write_u32(&mut head, status, registers.status.number() as u32);
    let range = write_u64(&mut head, base, addresses.registers);
    let value = write_u64(&mut head, range, addresses.range);
    let offset = write_u64(&mut head, value, registers.value);
    let id = write_u64(&mut head, offset, registers.offset);
    let cursor = write_u64(&mut head, id, registers.id);
    write_u64(&mut head, cursor, registers.cursor);
    head
}
