// What each instruction does.
ghost use Rattle.std.specs.Prelude.{◌≡◌, ◌<◌, ◌^◌};
ghost use Rattle.erst_interp.specs.Instructions.{work_of};
ghost use Rattle.erst_interp.specs.Works.{taken, changed, meaning};

use crate::configurations::{Configuration, Task};
use erst_entries::Instruction;

/// What an instruction does.
#[derive(Clone, Copy)]
pub enum Work {
    /// Goes on so: NOOP, ADD and SUBTRACT.
    GoOn(Configuration),
    /// Goes to this place of the program: GOTO.
    GoTo(u64),
    /// Waits so many microseconds: STALL.
    WaitFor(u64),
    /// Works on its register.
    OnRegister(Access),
}

/// What an instruction does with its register.
#[derive(Clone, Copy)]
pub enum Access {
    /// Reads its field first, and takes or changes it.
    Field(FieldUse),
    /// Stores this value: WRITE_REGISTER, WRITE_REGISTER_VALUE and STORE_VAR1.
    Store(u64),
    /// Compares its field with the entry's value: STALL_WHILE_TRUE.
    Compare,
    /// Copies memory, by its field: MOVE_DATA.
    Copy,
}

/// What an instruction does with its field.
#[derive(Clone, Copy)]
pub enum FieldUse {
    /// Goes on by it.
    Take(Taking),
    /// Stores what it makes of it.
    Change(Changing),
}

/// Where a field goes: READ_REGISTER, READ_REGISTER_VALUE, LOAD_VAR1, LOAD_VAR2, SKIP_NEXT_INSTRUCTION_IF_TRUE,
/// SET_SRC_ADDRESS_BASE and SET_DST_ADDRESS_BASE.
#[derive(Clone, Copy)]
pub enum Taking {
    Result,
    Comparison,
    Var1,
    Var2,
    Skip,
    SourceBase,
    TargetBase,
}

/// What becomes of a field: ADD_VALUE and SUBTRACT_VALUE.
#[derive(Clone, Copy)]
pub enum Changing {
    AddValue,
    SubtractValue,
}

impl Work {
    /// What an instruction does as a task.
    pub fn of(instruction: Instruction, task: &Task) -> Work
        requires { task.now.at.place < 2 ^ 63 }
        ensures { meaning result task.now ≡ work_of task.now instruction }
    {
        let at = task.at;
        match instruction {
            Instruction::ReadRegister => Work::take(Taking::Result),
            Instruction::ReadRegisterValue => Work::take(Taking::Comparison),
            Instruction::WriteRegister => Work::OnRegister(Access::Store(task.given)),
            Instruction::WriteRegisterValue => Work::OnRegister(Access::Store(task.entry.value)),
            Instruction::Noop => Work::GoOn(at.next()),
            Instruction::LoadVar1 => Work::take(Taking::Var1),
            Instruction::LoadVar2 => Work::take(Taking::Var2),
            Instruction::StoreVar1 => Work::OnRegister(Access::Store(at.var1)),
            Instruction::Add => Work::GoOn(Configuration {
                var1: at.var1.wrapping_add(at.var2),
                ..at.next()
            }),
            Instruction::Subtract => Work::GoOn(Configuration {
                var1: at.var2.wrapping_sub(at.var1),
                ..at.next()
            }),
            Instruction::AddValue => Work::change(Changing::AddValue),
            Instruction::SubtractValue => Work::change(Changing::SubtractValue),
            Instruction::Stall => Work::WaitFor(task.entry.value),
            Instruction::StallWhileTrue => Work::OnRegister(Access::Compare),
            Instruction::SkipNextIfTrue => Work::take(Taking::Skip),
            Instruction::Goto => Work::GoTo(task.entry.value),
            Instruction::SetSourceBase => Work::take(Taking::SourceBase),
            Instruction::SetTargetBase => Work::take(Taking::TargetBase),
            Instruction::MoveData => Work::OnRegister(Access::Copy),
        }
    }

    // Reads its field, and goes on by it.
    fn take(how: Taking) -> Work
        ensures { result ≡ Work.OnRegister (Access.Field (FieldUse.Take how)) }
    {
        Work::OnRegister(Access::Field(FieldUse::Take(how)))
    }

    // Reads its field, and stores what it makes of it.
    fn change(how: Changing) -> Work
        ensures { result ≡ Work.OnRegister (Access.Field (FieldUse.Change how)) }
    {
        Work::OnRegister(Access::Field(FieldUse::Change(how)))
    }
}

impl Taking {
    /// Where the run goes on once the field is read.
    pub fn taken(self, task: &Task, field: u64) -> Configuration
        requires { task.now.at.place < 2 ^ 63 }
        ensures { result ≡ taken self task.now field }
    {
        let next = task.at.next();
        let equal = field == task.entry.value;
        match self {
            Taking::Result => Configuration {
                result: Some(field),
                ..next
            },
            Taking::Comparison => Configuration {
                result: Some(if equal { 1 } else { 0 }),
                ..next
            },
            Taking::Var1 => Configuration {
                var1: field,
                ..next
            },
            Taking::Var2 => Configuration {
                var2: field,
                ..next
            },
            Taking::Skip => { if equal { next.next() } else { next } }
            Taking::SourceBase => Configuration {
                source: field,
                ..next
            },
            Taking::TargetBase => Configuration {
                target: field,
                ..next
            },
        }
    }
}

impl Changing {
    /// What is stored in place of the field.
    pub fn changed(self, task: &Task, field: u64) -> u64
        ensures { result ≡ changed self task.now field }
    {
        match self {
            Changing::AddValue => field.wrapping_add(task.entry.value),
            Changing::SubtractValue => field.wrapping_sub(task.entry.value),
        }
    }
}
