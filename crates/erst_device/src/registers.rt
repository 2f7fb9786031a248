// What the device keeps beside its store.
ghost use Rattle.std.specs.Prelude.{◌≡◌};

use crate::status::CommandStatus;

/// An operation that was begun and not ended.
#[derive(Clone, Copy, Debug, PartialEq, Eq)]
pub enum Operation {
    Write,
    Read,
    Clear,
    Dummy,
}

/// The execution that runs: none, the read of the record of an identifier, or the write or clear that is pending in the store.
#[derive(Clone, Copy, Debug, PartialEq, Eq)]
pub enum Running {
    Nothing,
    Reading(u64),
    Changing,
}

/// The registers, the cursor of a walk over the identifiers, and what runs.
#[derive(Clone, Copy, Debug)]
pub struct Registers {
    pub value: u64,
    pub operation: Option<Operation>,
    pub offset: u64,
    pub id: u64,
    pub status: CommandStatus,
    pub cursor: u64,
    pub running: Running,
}

impl Registers {
    ghost use Rattle.record_store.specs.Store.{StoreView};
    ghost use Rattle.erst_device.specs.DeviceState.{at_first};
    ghost use Rattle.erst_device.specs.Registers.{seen};

    /// The registers at first.
    pub fn new() -> Registers
        ensures first { (store : StoreView) → seen result store ≡ at_first store }
        ensures nothing { result.running ≡ Running.Nothing }
    {
        Registers {
            value: 0,
            operation: None,
            offset: 0,
            id: 0,
            status: CommandStatus::Success,
            cursor: 0,
            running: Running::Nothing,
        }
    }
}
