// Why a run ended without an answer.
use apei_space::SpaceFault;
use apei_tables::BadRegister;

/// Why a run ended without an answer. `index` is the entry's place in the program. What was done before stands.
#[derive(Clone, Copy, Debug, PartialEq, Eq)]
pub enum RunStop {
    /// A step was needed, and none was left.
    Budget,
    /// The entry's register region describes no register.
    Register { index: u64, why: BadRegister },
    /// ACPI defines no such instruction.
    UnknownInstruction { index: u64, code: u64 },
    /// A GOTO out of the program.
    Goto { index: u64, to: u64 },
    /// A MOVE_DATA of more than 65,536 bytes.
    MoveTooLong { index: u64, len: u64 },
    /// The table has no program for the action, which can't do without one.
    NoAction { code: u64 },
    /// The space refused an access.
    Space { index: u64, fault: SpaceFault },
}
