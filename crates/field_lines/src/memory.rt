// Memory errors (UEFI 2.8, N.2.5 and N.2.6).
ghost use Rattle.std.specs.Prelude.{◌≡◌, IsTrue};
ghost use Rattle.field_lines.specs.Layouts.{is_sound_structure};
ghost use Rattle.field_lines.specs.Code.{structure_of};
ghost use Rattle.field_lines.specs.Memory.{memory_error, memory_error_2};

use crate::Shape::{Decimal, Hexadecimal, OneOf};
use crate::section_rows::{NO_NAMES, NO_PARTS, bits, field, name};
use crate::{Field, Layout, Name, Shape};

// The types of errors in an error status (UEFI 2.8, N.2.13).
pub(crate) const ERROR_TYPES: [Name; 18] = [
    name!(1, "error within the component"),
    name!(16, "error in the bus"),
    name!(4, "storage error in memory"),
    name!(5, "storage error in the TLB"),
    name!(6, "storage error in the cache"),
    name!(7, "error in functional units"),
    name!(8, "component failed self test"),
    name!(9, "overflow of an internal queue"),
    name!(17, "virtual address not found"),
    name!(18, "improper access"),
    name!(19, "access to an unmapped address"),
    name!(20, "loss of lockstep"),
    name!(21, "response without a request"),
    name!(22, "bus parity error"),
    name!(23, "protocol error"),
    name!(24, "path error"),
    name!(25, "bus operation timeout"),
    name!(26, "read of poisoned data"),
];

// The types of memory errors (UEFI 2.8, N.2.5).
const MEMORY_ERRORS: [Name; 16] = [
    name!(0, "unknown"),
    name!(1, "no error"),
    name!(2, "single-bit ECC"),
    name!(3, "multi-bit ECC"),
    name!(4, "single-symbol chipkill ECC"),
    name!(5, "multi-symbol chipkill ECC"),
    name!(6, "master abort"),
    name!(7, "target abort"),
    name!(8, "parity error"),
    name!(9, "watchdog timeout"),
    name!(10, "invalid address"),
    name!(11, "mirror broken"),
    name!(12, "memory sparing"),
    name!(13, "scrub corrected error"),
    name!(14, "scrub uncorrected error"),
    name!(15, "physical memory map-out event"),
];

// A memory error (UEFI 2.8, N.2.5).
const MEMORY_ERROR_FIELDS: [Field; 23] = [
    field!(8, 8, Some(0), "error status", Hexadecimal),
    bits!(8, 8, Some(0), "error status type", 8, 8, &ERROR_TYPES),
    field!(16, 8, Some(1), "physical address", Hexadecimal),
    field!(24, 8, Some(2), "physical address mask", Hexadecimal),
    field!(32, 2, Some(3), "node", Decimal),
    field!(34, 2, Some(4), "card", Decimal),
    field!(36, 2, Some(5), "module", Decimal),
    field!(38, 2, Some(6), "bank", Decimal),
    field!(39, 1, Some(19), "bank group", Decimal),
    field!(38, 1, Some(20), "bank address", Decimal),
    field!(40, 2, Some(7), "device", Decimal),
    field!(42, 2, Some(8), "row", Decimal),
    field!(44, 2, Some(9), "column", Decimal),
    field!(46, 2, Some(10), "bit position", Decimal),
    field!(48, 8, Some(11), "requestor ID", Hexadecimal),
    field!(56, 8, Some(12), "responder ID", Hexadecimal),
    field!(64, 8, Some(13), "target ID", Hexadecimal),
    field!(72, 1, Some(14), "memory error type", OneOf(&MEMORY_ERRORS)),
    bits!(73, 1, Some(18), "extended row", 0, 2, &NO_NAMES),
    bits!(73, 1, Some(21), "chip identification", 5, 3, &NO_NAMES),
    field!(74, 2, Some(15), "rank number", Decimal),
    field!(76, 2, Some(16), "card handle", Hexadecimal),
    field!(78, 2, Some(17), "module handle", Hexadecimal),
];

const MEMORY_ERROR: Layout = Layout {
    valid_at: 0,
    fields: &MEMORY_ERROR_FIELDS,
    parts_at: 0,
    parts: &NO_PARTS,
};

// A memory error, version 2 (UEFI 2.8, N.2.6).
const MEMORY_ERROR_2_FIELDS: [Field; 23] = [
    field!(8, 8, Some(0), "error status", Hexadecimal),
    bits!(8, 8, Some(0), "error status type", 8, 8, &ERROR_TYPES),
    field!(16, 8, Some(1), "physical address", Hexadecimal),
    field!(24, 8, Some(2), "physical address mask", Hexadecimal),
    field!(32, 2, Some(3), "node", Decimal),
    field!(34, 2, Some(4), "card", Decimal),
    field!(36, 2, Some(5), "module", Decimal),
    field!(38, 2, Some(6), "bank", Decimal),
    field!(39, 1, Some(20), "bank group", Decimal),
    field!(38, 1, Some(21), "bank address", Decimal),
    field!(40, 4, Some(7), "device", Decimal),
    field!(44, 4, Some(8), "row", Decimal),
    field!(48, 4, Some(9), "column", Decimal),
    field!(52, 4, Some(10), "rank", Decimal),
    field!(56, 4, Some(11), "bit position", Decimal),
    field!(60, 1, Some(12), "chip identification", Decimal),
    field!(61, 1, Some(13), "memory error type", OneOf(&MEMORY_ERRORS)),
    field!(62, 1, Some(14), "status", Decimal),
    field!(64, 8, Some(15), "requestor ID", Hexadecimal),
    field!(72, 8, Some(16), "responder ID", Hexadecimal),
    field!(80, 8, Some(17), "target ID", Hexadecimal),
    field!(88, 4, Some(18), "card handle", Hexadecimal),
    field!(92, 4, Some(19), "module handle", Hexadecimal),
];

const MEMORY_ERROR_2: Layout = Layout {
    valid_at: 0,
    fields: &MEMORY_ERROR_2_FIELDS,
    parts_at: 0,
    parts: &NO_PARTS,
};

/// The fields of a memory error (UEFI 2.8, N.2.5).
#[tactic(auto, unfolding(crate::specs::Memory::memory_error))]
pub(crate) fn memory_error() -> Layout
    ensures layout { structure_of result ≡ memory_error }
    ensures sound { IsTrue (is_sound_structure (structure_of result)) }
{
    MEMORY_ERROR
}

/// The fields of a memory error, version 2 (UEFI 2.8, N.2.6).
#[tactic(auto, unfolding(crate::specs::Memory::memory_error_2))]
pub(crate) fn memory_error_2() -> Layout
    ensures layout { structure_of result ≡ memory_error_2 }
    ensures sound { IsTrue (is_sound_structure (structure_of result)) }
{
    MEMORY_ERROR_2
}
