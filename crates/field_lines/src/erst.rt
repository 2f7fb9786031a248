// The Error Record Serialization Table (ACPI 6.4, 18.5.1).
ghost use Rattle.std.specs.Prelude.{◌≡◌, IsTrue};
ghost use Rattle.field_lines.specs.Layouts.{is_sound_structure};
ghost use Rattle.field_lines.specs.Code.{structure_of};
ghost use Rattle.field_lines.specs.Erst.{erst_header, erst_entry};

use crate::Shape::{Decimal, Flags, Hexadecimal, OneOf, Register};
use crate::table_rows::{NO_PARTS, field, name};
use crate::{Field, Layout, Name};

// The serialization actions (ACPI 6.4, 18.5.1.1).
const ACTIONS: [Name; 16] = [
    name!(0, "BEGIN_WRITE_OPERATION"),
    name!(1, "BEGIN_READ_OPERATION"),
    name!(2, "BEGIN_CLEAR_OPERATION"),
    name!(3, "END_OPERATION"),
    name!(4, "SET_RECORD_OFFSET"),
    name!(5, "EXECUTE_OPERATION"),
    name!(6, "CHECK_BUSY_STATUS"),
    name!(7, "GET_COMMAND_STATUS"),
    name!(8, "GET_RECORD_IDENTIFIER"),
    name!(9, "SET_RECORD_IDENTIFIER"),
    name!(10, "GET_RECORD_COUNT"),
    name!(11, "BEGIN_DUMMY_WRITE_OPERATION"),
    name!(13, "GET_ERROR_LOG_ADDRESS_RANGE"),
    name!(14, "GET_ERROR_LOG_ADDRESS_RANGE_LENGTH"),
    name!(15, "GET_ERROR_LOG_ADDRESS_RANGE_ATTRIBUTES"),
    name!(16, "GET_EXECUTE_OPERATION_TIMINGS"),
];

// The serialization instructions (ACPI 6.4, 18.5.1.2).
const INSTRUCTIONS: [Name; 19] = [
    name!(0, "READ_REGISTER"),
    name!(1, "READ_REGISTER_VALUE"),
    name!(2, "WRITE_REGISTER"),
    name!(3, "WRITE_REGISTER_VALUE"),
    name!(4, "NOOP"),
    name!(5, "LOAD_VAR1"),
    name!(6, "LOAD_VAR2"),
    name!(7, "STORE_VAR1"),
    name!(8, "ADD"),
    name!(9, "SUBTRACT"),
    name!(10, "ADD_VALUE"),
    name!(11, "SUBTRACT_VALUE"),
    name!(12, "STALL"),
    name!(13, "STALL_WHILE_TRUE"),
    name!(14, "SKIP_NEXT_INSTRUCTION_IF_TRUE"),
    name!(15, "GOTO"),
    name!(16, "SET_SRC_ADDRESS_BASE"),
    name!(17, "SET_DST_ADDRESS_BASE"),
    name!(18, "MOVE_DATA"),
];

// The flags of instruction entries (ACPI 6.4, 18.5.1.2).
const INSTRUCTION_FLAGS: [Name; 1] = [name!(0, "preserve register")];

// What stands behind the header of an ERST (ACPI 6.4, 18.5.1).
const ERST_HEADER_FIELDS: [Field; 2] = [
    field!(36, 4, None, "serialization header size", Decimal),
    field!(44, 4, None, "instruction entry count", Decimal),
];

const ERST_HEADER: Layout = Layout {
    valid_at: 0,
    fields: &ERST_HEADER_FIELDS,
    parts_at: 0,
    parts: &NO_PARTS,
};

// A serialization instruction entry (ACPI 6.4, 18.5.1.2).
const ERST_ENTRY_FIELDS: [Field; 6] = [
    field!(0, 1, None, "serialization action", OneOf(&ACTIONS)),
    field!(1, 1, None, "instruction", OneOf(&INSTRUCTIONS)),
    field!(2, 1, None, "flags", Flags(&INSTRUCTION_FLAGS)),
    field!(4, 12, None, "register region", Register),
    field!(16, 8, None, "value", Hexadecimal),
    field!(24, 8, None, "mask", Hexadecimal),
];

const ERST_ENTRY: Layout = Layout {
    valid_at: 0,
    fields: &ERST_ENTRY_FIELDS,
    parts_at: 0,
    parts: &NO_PARTS,
};

/// The fields of what stands behind the header of an ERST (ACPI 6.4, 18.5.1).
pub fn erst_header() -> Layout
    ensures layout { structure_of result ≡ erst_header }
    ensures sound { IsTrue (is_sound_structure (structure_of result)) }
{
    ERST_HEADER
}

/// The fields of a serialization instruction entry (ACPI 6.4, 18.5.1.2).
pub fn erst_entry() -> Layout
    ensures layout { structure_of result ≡ erst_entry }
    ensures sound { IsTrue (is_sound_structure (structure_of result)) }
{
    ERST_ENTRY
}
