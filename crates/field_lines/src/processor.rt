// A generic processor error (UEFI 2.8, N.2.4.1).
ghost use Rattle.std.specs.Prelude.{◌≡◌, IsTrue};
ghost use Rattle.field_lines.specs.Layouts.{is_sound_structure};
ghost use Rattle.field_lines.specs.Code.{structure_of};
ghost use Rattle.field_lines.specs.Processor.{processor_generic};

use crate::Shape::{Decimal, Flags, Hexadecimal, OneOf, Text};
use crate::section_rows::{NO_PARTS, field, name};
use crate::{Field, Layout, Name};

// The types of processors (UEFI 2.8, N.2.4.1).
const PROCESSOR_TYPES: [Name; 3] = [name!(0, "IA32/X64"), name!(1, "IA64"), name!(2, "ARM")];

// The instruction sets (UEFI 2.8, N.2.4.1).
const INSTRUCTION_SETS: [Name; 5] = [
    name!(0, "IA32"),
    name!(1, "IA64"),
    name!(2, "X64"),
    name!(3, "ARM A32/T32"),
    name!(4, "ARM A64"),
];

// The types of processor errors (UEFI 2.8, N.2.4.1).
const PROCESSOR_ERRORS: [Name; 4] = [
    name!(0, "cache error"),
    name!(1, "TLB error"),
    name!(2, "bus error"),
    name!(3, "micro-architectural error"),
];

// The operations (UEFI 2.8, N.2.4.1).
const PROCESSOR_OPERATIONS: [Name; 4] = [
    name!(0, "unknown or generic"),
    name!(1, "data read"),
    name!(2, "data write"),
    name!(3, "instruction execution"),
];

// The flags of a processor error (UEFI 2.8, N.2.4.1).
const PROCESSOR_FLAGS: [Name; 4] = [
    name!(0, "restartable"),
    name!(1, "precise IP"),
    name!(2, "overflow"),
    name!(3, "corrected"),
];

// A generic processor error (UEFI 2.8, N.2.4.1).
const PROCESSOR_GENERIC_FIELDS: [Field; 13] = [
    field!(8, 1, Some(0), "processor type", OneOf(&PROCESSOR_TYPES)),
    field!(9, 1, Some(1), "processor ISA", OneOf(&INSTRUCTION_SETS)),
    field!(
        10,
        1,
        Some(2),
        "processor error type",
        Flags(&PROCESSOR_ERRORS)
    ),
    field!(11, 1, Some(3), "operation", OneOf(&PROCESSOR_OPERATIONS)),
    field!(12, 1, Some(4), "flags", Flags(&PROCESSOR_FLAGS)),
    field!(13, 1, Some(5), "level", Decimal),
    field!(16, 8, Some(6), "CPU version info", Hexadecimal),
    field!(24, 128, Some(7), "CPU brand string", Text),
    field!(152, 8, Some(8), "processor ID", Hexadecimal),
    field!(160, 8, Some(9), "target address", Hexadecimal),
    field!(168, 8, Some(10), "requestor identifier", Hexadecimal),
    field!(176, 8, Some(11), "responder identifier", Hexadecimal),
    field!(184, 8, Some(12), "instruction IP", Hexadecimal),
];

const PROCESSOR_GENERIC: Layout = Layout {
    valid_at: 0,
    fields: &PROCESSOR_GENERIC_FIELDS,
    parts_at: 0,
    parts: &NO_PARTS,
};

/// The fields of a generic processor error (UEFI 2.8, N.2.4.1).
#[tactic(auto, unfolding(crate::specs::Processor::processor_generic))]
pub(crate) fn processor_generic() -> Layout
    ensures layout { structure_of result ≡ processor_generic }
    ensures sound { IsTrue (is_sound_structure (structure_of result)) }
{
    PROCESSOR_GENERIC
}
