// Where a run stands that makes no access itself.
ghost use Rattle.std.specs.Prelude.{◌≡◌};
ghost use Rattle.erst_interp.specs.Continuing.{demand_of};

use crate::configurations::{Configuration, Task};
use crate::demands::Demand;
use crate::stops::RunStop;
use crate::works::{Changing, Taking};
use apei_tables::Register;

/// The access that an instruction waits for, with all that its answer needs.
#[derive(Clone, Copy)]
pub enum Awaited {
    /// STALL: the wait, in microseconds.
    Stall(u64),
    /// STALL_WHILE_TRUE: the wait before its field is read again.
    Delay(Register),
    /// STALL_WHILE_TRUE: the field that it compares.
    Compared(Register),
    /// The field that an instruction goes on by.
    Taken(Register, Taking),
    /// The field that an instruction changes.
    Changed(Register, Changing),
    /// The register whose other bits a store keeps, and the value that it stores.
    Kept(Register, u64),
    /// The number that a store writes.
    Written(Register, u64),
    /// MOVE_DATA: its field, which is added to both bases.
    Offset(Register),
    /// MOVE_DATA: the copy.
    Copied { source: u64, target: u64, len: u32 },
}

/// How far an instruction has come.
#[derive(Clone, Copy)]
pub enum Progress {
    /// It is done, and the run goes on so.
    Done(Configuration),
    /// It waits for an access.
    Awaits(Awaited),
    /// It stops the run.
    Stopped(RunStop),
}

/// How far a run has come.
#[derive(Clone, Copy)]
pub enum RunState {
    /// It can go on without an access.
    Ready(Configuration),
    /// It waits for an access of an instruction.
    Awaiting(Task, Awaited),
    /// It has its answer.
    Ended(Result<u64, RunStop>),
}

impl Awaited {
    /// The access itself.
    #[inline(always)]
    pub fn demand(&self, task: &Task) -> Demand
        ensures { result ≡ demand_of task.now self.now }
    {
        match *self {
            Awaited::Stall(micros) => Demand::Pause { micros },
            Awaited::Delay(_) => Demand::Pause {
                micros: task.at.var1,
            },
            Awaited::Compared(register) => load(register),
            Awaited::Taken(register, _) => load(register),
            Awaited::Changed(register, _) => load(register),
            Awaited::Kept(register, _) => load(register),
            Awaited::Written(register, value) => Demand::Store {
                place: register.place,
                width: register.access,
                value,
            },
            Awaited::Offset(register) => load(register),
            Awaited::Copied {
                source,
                target,
                len,
            } => Demand::Move {
                source,
                target,
                len,
            },
        }
    }
}

#[inline(always)]
fn load(register: Register) -> Demand
    ensures { result ≡ Demand.Load register.place register.access }
{
    Demand::Load {
        place: register.place,
        width: register.access,
    }
}
