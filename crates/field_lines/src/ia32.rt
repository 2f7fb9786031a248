// IA-32 and x64 processor errors (UEFI 2.8, N.2.4.2).
ghost use Rattle.std.specs.Prelude.{◌≡◌, IsTrue};
ghost use Rattle.field_lines.specs.Layouts.{is_sound_structure};
ghost use Rattle.field_lines.specs.Code.{structure_of};
ghost use Rattle.field_lines.specs.Ia32.{ia32_processor};

use crate::Shape::{Decimal, Digits, Guid, Hexadecimal, OneOf};
use crate::section_rows::{NO_NAMES, bits, field, name};
use crate::{Content, Count, Field, Inner, Key, Layout, Name, Parts, Shape, Size};

// The transaction types of a check (UEFI 2.8, N.2.4.2.1).
pub(crate) const TRANSACTIONS: [Name; 3] = [
    name!(0, "instruction"),
    name!(1, "data access"),
    name!(2, "generic"),
];

// The operations of a check (UEFI 2.8, N.2.4.2.1).
const CHECK_OPERATIONS: [Name; 9] = [
    name!(0, "generic error"),
    name!(1, "generic read"),
    name!(2, "generic write"),
    name!(3, "data read"),
    name!(4, "data write"),
    name!(5, "instruction fetch"),
    name!(6, "prefetch"),
    name!(7, "eviction"),
    name!(8, "snoop"),
];

// The participation types (UEFI 2.8, N.2.4.2.1).
pub(crate) const PARTICIPATIONS: [Name; 4] = [
    name!(0, "local originator"),
    name!(1, "local responder"),
    name!(2, "local observer"),
    name!(3, "generic"),
];

// The address spaces of a bus check (UEFI 2.8, N.2.4.2.1).
const BUS_SPACES: [Name; 3] = [
    name!(0, "memory access"),
    name!(2, "I/O"),
    name!(3, "other transaction"),
];

// The error types of an MS check (UEFI 2.8, N.2.4.2.1).
const MS_ERRORS: [Name; 6] = [
    name!(0, "no error"),
    name!(1, "unclassified"),
    name!(2, "microcode ROM parity error"),
    name!(3, "external error"),
    name!(4, "FRC error"),
    name!(5, "internal unclassified"),
];

// The types of register contexts (UEFI 2.8, N.2.4.2.2).
const CONTEXT_TYPES: [Name; 8] = [
    name!(0, "unclassified data"),
    name!(1, "MSR registers"),
    name!(2, "32-bit mode execution context"),
    name!(3, "64-bit mode execution context"),
    name!(4, "FXSAVE context"),
    name!(5, "32-bit mode debug registers"),
    name!(6, "64-bit mode debug registers"),
    name!(7, "memory mapped registers"),
];

// An IA-32 or x64 processor error (UEFI 2.8, N.2.4.2).
const IA32_PROCESSOR_FIELDS: [Field; 2] = [
    field!(8, 8, Some(0), "local APIC ID", Hexadecimal),
    field!(16, 48, Some(1), "CPUID info", Digits),
];

// A part of it: error information.
const IA32_ERROR_FIELDS: [Field; 6] = [
    field!(0, 16, None, "error structure type", Guid),
    field!(24, 8, Some(0), "check information", Hexadecimal),
    field!(32, 8, Some(1), "target identifier", Hexadecimal),
    field!(40, 8, Some(2), "requestor identifier", Hexadecimal),
    field!(48, 8, Some(3), "responder identifier", Hexadecimal),
    field!(56, 8, Some(4), "instruction pointer", Hexadecimal),
];

// What stands inside: cache check.
const CHECK_FIELDS: [Field; 8] = [
    bits!(0, 8, Some(0), "transaction type", 16, 2, &TRANSACTIONS),
    bits!(0, 8, Some(1), "operation", 18, 4, &CHECK_OPERATIONS),
    bits!(0, 8, Some(2), "level", 22, 3, &NO_NAMES),
    bits!(0, 8, Some(3), "processor context corrupt", 25, 1, &NO_NAMES),
    bits!(0, 8, Some(4), "uncorrected", 26, 1, &NO_NAMES),
    bits!(0, 8, Some(5), "precise IP", 27, 1, &NO_NAMES),
    bits!(0, 8, Some(6), "restartable IP", 28, 1, &NO_NAMES),
    bits!(0, 8, Some(7), "overflow", 29, 1, &NO_NAMES),
];

// What stands inside: bus check.
const BUS_CHECK_FIELDS: [Field; 11] = [
    bits!(0, 8, Some(0), "transaction type", 16, 2, &TRANSACTIONS),
    bits!(0, 8, Some(1), "operation", 18, 4, &CHECK_OPERATIONS),
    bits!(0, 8, Some(2), "level", 22, 3, &NO_NAMES),
    bits!(0, 8, Some(3), "processor context corrupt", 25, 1, &NO_NAMES),
    bits!(0, 8, Some(4), "uncorrected", 26, 1, &NO_NAMES),
    bits!(0, 8, Some(5), "precise IP", 27, 1, &NO_NAMES),
    bits!(0, 8, Some(6), "restartable IP", 28, 1, &NO_NAMES),
    bits!(0, 8, Some(7), "overflow", 29, 1, &NO_NAMES),
    bits!(0, 8, Some(8), "participation type", 30, 2, &PARTICIPATIONS),
    bits!(0, 8, Some(9), "time out", 32, 1, &NO_NAMES),
    bits!(0, 8, Some(10), "address space", 33, 2, &BUS_SPACES),
];

// What stands inside: MS check.
const MS_CHECK_FIELDS: [Field; 6] = [
    bits!(0, 8, Some(0), "error type", 16, 3, &MS_ERRORS),
    bits!(0, 8, Some(1), "processor context corrupt", 19, 1, &NO_NAMES),
    bits!(0, 8, Some(2), "uncorrected", 20, 1, &NO_NAMES),
    bits!(0, 8, Some(3), "precise IP", 21, 1, &NO_NAMES),
    bits!(0, 8, Some(4), "restartable IP", 22, 1, &NO_NAMES),
    bits!(0, 8, Some(5), "overflow", 23, 1, &NO_NAMES),
];

// A part of it: context.
const IA32_CONTEXT_FIELDS: [Field; 4] = [
    field!(0, 2, None, "register context type", OneOf(&CONTEXT_TYPES)),
    field!(2, 2, None, "register array size", Decimal),
    field!(4, 4, None, "MSR address", Hexadecimal),
    field!(8, 8, None, "MM register address", Hexadecimal),
];

// What stands inside: the registers of an IA-32 context.
const IA32_REGISTERS_FIELDS: [Field; 25] = [
    field!(0, 4, None, "EAX", Hexadecimal),
    field!(4, 4, None, "EBX", Hexadecimal),
    field!(8, 4, None, "ECX", Hexadecimal),
    field!(12, 4, None, "EDX", Hexadecimal),
    field!(16, 4, None, "ESI", Hexadecimal),
    field!(20, 4, None, "EDI", Hexadecimal),
    field!(24, 4, None, "EBP", Hexadecimal),
    field!(28, 4, None, "ESP", Hexadecimal),
    field!(32, 2, None, "CS", Hexadecimal),
    field!(34, 2, None, "DS", Hexadecimal),
    field!(36, 2, None, "SS", Hexadecimal),
    field!(38, 2, None, "ES", Hexadecimal),
    field!(40, 2, None, "FS", Hexadecimal),
    field!(42, 2, None, "GS", Hexadecimal),
    field!(44, 4, None, "EFLAGS", Hexadecimal),
    field!(48, 4, None, "EIP", Hexadecimal),
    field!(52, 4, None, "CR0", Hexadecimal),
    field!(56, 4, None, "CR1", Hexadecimal),
    field!(60, 4, None, "CR2", Hexadecimal),
    field!(64, 4, None, "CR3", Hexadecimal),
    field!(68, 4, None, "CR4", Hexadecimal),
    field!(72, 8, None, "GDTR", Hexadecimal),
    field!(80, 8, None, "IDTR", Hexadecimal),
    field!(88, 2, None, "LDTR", Hexadecimal),
    field!(90, 2, None, "TR", Hexadecimal),
];

// What stands inside: the registers of an x64 context.
const X64_REGISTERS_FIELDS: [Field; 34] = [
    field!(0, 8, None, "RAX", Hexadecimal),
    field!(8, 8, None, "RBX", Hexadecimal),
    field!(16, 8, None, "RCX", Hexadecimal),
    field!(24, 8, None, "RDX", Hexadecimal),
    field!(32, 8, None, "RSI", Hexadecimal),
    field!(40, 8, None, "RDI", Hexadecimal),
    field!(48, 8, None, "RBP", Hexadecimal),
    field!(56, 8, None, "RSP", Hexadecimal),
    field!(64, 8, None, "R8", Hexadecimal),
    field!(72, 8, None, "R9", Hexadecimal),
    field!(80, 8, None, "R10", Hexadecimal),
    field!(88, 8, None, "R11", Hexadecimal),
    field!(96, 8, None, "R12", Hexadecimal),
    field!(104, 8, None, "R13", Hexadecimal),
    field!(112, 8, None, "R14", Hexadecimal),
    field!(120, 8, None, "R15", Hexadecimal),
    field!(128, 2, None, "CS", Hexadecimal),
    field!(130, 2, None, "DS", Hexadecimal),
    field!(132, 2, None, "SS", Hexadecimal),
    field!(134, 2, None, "ES", Hexadecimal),
    field!(136, 2, None, "FS", Hexadecimal),
    field!(138, 2, None, "GS", Hexadecimal),
    field!(144, 8, None, "RFLAGS", Hexadecimal),
    field!(152, 8, None, "EIP", Hexadecimal),
    field!(160, 8, None, "CR0", Hexadecimal),
    field!(168, 8, None, "CR1", Hexadecimal),
    field!(176, 8, None, "CR2", Hexadecimal),
    field!(184, 8, None, "CR3", Hexadecimal),
    field!(192, 8, None, "CR4", Hexadecimal),
    field!(200, 8, None, "CR8", Hexadecimal),
    field!(208, 16, None, "GDTR", Hexadecimal),
    field!(224, 16, None, "IDTR", Hexadecimal),
    field!(240, 2, None, "LDTR", Hexadecimal),
    field!(242, 2, None, "TR", Hexadecimal),
];

const IA32_ERROR_INSIDE: [Inner; 4] = [
    Inner {
        name: "cache check",
        bit: Some(0),
        key: Key::Guid {
            at: 0,
            text: b"a55701f5-e3ef-43de-ac72-249b573fad2c",
        },
        at: 24,
        content: Content::Fields(&CHECK_FIELDS),
    },
    Inner {
        name: "TLB check",
        bit: Some(0),
        key: Key::Guid {
            at: 0,
            text: b"fc06b535-5e1f-4562-9f25-0a3b9adb63c3",
        },
        at: 24,
        content: Content::Fields(&CHECK_FIELDS),
    },
    Inner {
        name: "bus check",
        bit: Some(0),
        key: Key::Guid {
            at: 0,
            text: b"1cf3f8b3-c5b1-49a2-aa59-5eef92ffa63c",
        },
        at: 24,
        content: Content::Fields(&BUS_CHECK_FIELDS),
    },
    Inner {
        name: "MS check",
        bit: Some(0),
        key: Key::Guid {
            at: 0,
            text: b"48ab7f57-dc34-4f6c-a7d3-b0b5b0a74314",
        },
        at: 24,
        content: Content::Fields(&MS_CHECK_FIELDS),
    },
];

const IA32_CONTEXT_INSIDE: [Inner; 2] = [
    Inner {
        name: "registers",
        bit: None,
        key: Key::Number {
            at: 0,
            width: 2,
            number: 2,
        },
        at: 16,
        content: Content::Fields(&IA32_REGISTERS_FIELDS),
    },
    Inner {
        name: "registers",
        bit: None,
        key: Key::Number {
            at: 0,
            width: 2,
            number: 3,
        },
        at: 16,
        content: Content::Fields(&X64_REGISTERS_FIELDS),
    },
];

const IA32_PROCESSOR_PARTS: [Parts; 2] = [
    Parts {
        name: "error information",
        count: Count {
            at: 0,
            width: 8,
            low: 2,
            bits: 6,
        },
        size: Size::Fixed(64),
        valid_at: 16,
        fields: &IA32_ERROR_FIELDS,
        inner: &IA32_ERROR_INSIDE,
    },
    Parts {
        name: "context",
        count: Count {
            at: 0,
            width: 8,
            low: 8,
            bits: 6,
        },
        size: Size::Told {
            at: 2,
            width: 2,
            more: 16,
        },
        valid_at: 0,
        fields: &IA32_CONTEXT_FIELDS,
        inner: &IA32_CONTEXT_INSIDE,
    },
];

const IA32_PROCESSOR: Layout = Layout {
    valid_at: 0,
    fields: &IA32_PROCESSOR_FIELDS,
    parts_at: 64,
    parts: &IA32_PROCESSOR_PARTS,
};

/// The fields of an IA-32 or x64 processor error (UEFI 2.8, N.2.4.2).
#[tactic(auto, unfolding(crate::specs::Ia32::ia32_processor))]
pub(crate) fn ia32_processor() -> Layout
    ensures layout { structure_of result ≡ ia32_processor }
    ensures sound { IsTrue (is_sound_structure (structure_of result)) }
{
    IA32_PROCESSOR
}
