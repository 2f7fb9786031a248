// The serialization instructions by name.
ghost use Rattle.std.specs.Prelude.{◌≡◌, Some};
ghost use Rattle.erst_entries.specs.Instructions.{instruction_name, instruction_of};

/// A serialization instruction (ACPI 6.4, section 18.5.1.2).
#[derive(Clone, Copy, Debug, PartialEq, Eq)]
pub enum Instruction {
    /// READ_REGISTER: the result is the field.
    ReadRegister,
    /// READ_REGISTER_VALUE: the result is 1 where the field equals the entry's value, else 0.
    ReadRegisterValue,
    /// WRITE_REGISTER: stores the value that the run was given.
    WriteRegister,
    /// WRITE_REGISTER_VALUE: stores the entry's value.
    WriteRegisterValue,
    /// NOOP.
    Noop,
    /// LOAD_VAR1: VAR1 becomes the field.
    LoadVar1,
    /// LOAD_VAR2: VAR2 becomes the field.
    LoadVar2,
    /// STORE_VAR1: stores VAR1.
    StoreVar1,
    /// ADD: VAR1 becomes VAR1 + VAR2.
    Add,
    /// SUBTRACT: VAR1 becomes VAR2 - VAR1.
    Subtract,
    /// ADD_VALUE: stores the field and the entry's value together.
    AddValue,
    /// SUBTRACT_VALUE: stores the field less the entry's value.
    SubtractValue,
    /// STALL: waits so many microseconds as the entry's value says.
    Stall,
    /// STALL_WHILE_TRUE: waits VAR1 microseconds, and compares again, while the field equals the entry's value.
    StallWhileTrue,
    /// SKIP_NEXT_INSTRUCTION_IF_TRUE: skips the next entry where the field equals the entry's value.
    SkipNextIfTrue,
    /// GOTO: goes on at the program's entry that the value numbers.
    Goto,
    /// SET_SRC_ADDRESS_BASE: the base of the source becomes the field.
    SetSourceBase,
    /// SET_DST_ADDRESS_BASE: the base of the target becomes the field.
    SetTargetBase,
    /// MOVE_DATA: copies VAR2 bytes, the field behind the base of the source, to the field behind that of the target.
    MoveData,
}

impl Instruction {
    /// The instruction of a code, `None` where ACPI defines none.
    pub fn of(code: u8) -> Option<Instruction>
        ensures { result ≡ instruction_of code }
    {
        Some(match code {
            0x00 => Instruction::ReadRegister,
            0x01 => Instruction::ReadRegisterValue,
            0x02 => Instruction::WriteRegister,
            0x03 => Instruction::WriteRegisterValue,
            0x04 => Instruction::Noop,
            0x05 => Instruction::LoadVar1,
            0x06 => Instruction::LoadVar2,
            0x07 => Instruction::StoreVar1,
            0x08 => Instruction::Add,
            0x09 => Instruction::Subtract,
            0x0a => Instruction::AddValue,
            0x0b => Instruction::SubtractValue,
            0x0c => Instruction::Stall,
            0x0d => Instruction::StallWhileTrue,
            0x0e => Instruction::SkipNextIfTrue,
            0x0f => Instruction::Goto,
            0x10 => Instruction::SetSourceBase,
            0x11 => Instruction::SetTargetBase,
            0x12 => Instruction::MoveData,
            _ => return None,
        })
    }

    /// Its code.
    pub fn code(self) -> u8
        ensures { instruction_of result ≡ Some self }
    {
        match self {
            Instruction::ReadRegister => 0x00,
            Instruction::ReadRegisterValue => 0x01,
            Instruction::WriteRegister => 0x02,
            Instruction::WriteRegisterValue => 0x03,
            Instruction::Noop => 0x04,
            Instruction::LoadVar1 => 0x05,
            Instruction::LoadVar2 => 0x06,
            Instruction::StoreVar1 => 0x07,
            Instruction::Add => 0x08,
            Instruction::Subtract => 0x09,
            Instruction::AddValue => 0x0a,
            Instruction::SubtractValue => 0x0b,
            Instruction::Stall => 0x0c,
            Instruction::StallWhileTrue => 0x0d,
            Instruction::SkipNextIfTrue => 0x0e,
            Instruction::Goto => 0x0f,
            Instruction::SetSourceBase => 0x10,
            Instruction::SetTargetBase => 0x11,
            Instruction::MoveData => 0x12,
        }
    }

    /// Its name, as ACPI writes it.
    pub fn name(self) -> &'static str
        ensures { result.now ≡ instruction_name self }
    {
        match self {
            Instruction::ReadRegister => "READ_REGISTER",
            Instruction::ReadRegisterValue => "READ_REGISTER_VALUE",
            Instruction::WriteRegister => "WRITE_REGISTER",
            Instruction::WriteRegisterValue => "WRITE_REGISTER_VALUE",
            Instruction::Noop => "NOOP",
            Instruction::LoadVar1 => "LOAD_VAR1",
            Instruction::LoadVar2 => "LOAD_VAR2",
            Instruction::StoreVar1 => "STORE_VAR1",
            Instruction::Add => "ADD",
            Instruction::Subtract => "SUBTRACT",
            Instruction::AddValue => "ADD_VALUE",
            Instruction::SubtractValue => "SUBTRACT_VALUE",
            Instruction::Stall => "STALL",
            Instruction::StallWhileTrue => "STALL_WHILE_TRUE",
            Instruction::SkipNextIfTrue => "SKIP_NEXT_INSTRUCTION_IF_TRUE",
            Instruction::Goto => "GOTO",
            Instruction::SetSourceBase => "SET_SRC_ADDRESS_BASE",
            Instruction::SetTargetBase => "SET_DST_ADDRESS_BASE",
            Instruction::MoveData => "MOVE_DATA",
        }
    }
}
