// ARM processor errors (UEFI 2.8, N.2.4.4).
ghost use Rattle.std.specs.Prelude.{◌≡◌, IsTrue};
ghost use Rattle.field_lines.specs.Layouts.{is_sound_structure};
ghost use Rattle.field_lines.specs.Code.{structure_of};
ghost use Rattle.field_lines.specs.Arm.{arm_processor};

use crate::Shape::{Decimal, Flags, Hexadecimal, OneOf};
use crate::ia32::{PARTICIPATIONS, TRANSACTIONS};
use crate::section_rows::{NO_NAMES, bits, field, name};
use crate::{Content, Count, Field, Inner, Key, Layout, Name, Parts, Shape, Size};

// The running states (UEFI 2.8, N.2.4.4).
const RUNNING_STATES: [Name; 1] = [name!(0, "running")];

// The types of ARM errors, by bits (UEFI 2.8, N.2.4.4.1, as its errata have them).
const ARM_ERROR_TYPES: [Name; 4] = [
    name!(1, "cache error"),
    name!(2, "TLB error"),
    name!(3, "bus error"),
    name!(4, "micro-architectural error"),
];

// The flags of ARM errors (UEFI 2.8, N.2.4.4.1).
const ARM_ERROR_FLAGS: [Name; 4] = [
    name!(0, "first error captured"),
    name!(1, "last error captured"),
    name!(2, "propagated"),
    name!(3, "overflow"),
];

// The operations of ARM cache errors (UEFI 2.8, N.2.4.4.1).
const ARM_OPERATIONS: [Name; 11] = [
    name!(0, "generic error"),
    name!(1, "generic read"),
    name!(2, "generic write"),
    name!(3, "data read"),
    name!(4, "data write"),
    name!(5, "instruction fetch"),
    name!(6, "prefetch"),
    name!(7, "eviction"),
    name!(8, "snooping"),
    name!(9, "snooped"),
    name!(10, "management"),
];

// The operations of ARM TLB errors (UEFI 2.8, N.2.4.4.1).
const ARM_TLB_OPERATIONS: [Name; 9] = [
    name!(0, "generic error"),
    name!(1, "generic read"),
    name!(2, "generic write"),
    name!(3, "data read"),
    name!(4, "data write"),
    name!(5, "instruction fetch"),
    name!(6, "prefetch"),
    name!(7, "local management"),
    name!(8, "external management"),
];

// The operations of ARM bus errors (UEFI 2.8, N.2.4.4.1).
const ARM_BUS_OPERATIONS: [Name; 7] = [
    name!(0, "generic error"),
    name!(1, "generic read"),
    name!(2, "generic write"),
    name!(3, "data read"),
    name!(4, "data write"),
    name!(5, "instruction fetch"),
    name!(6, "prefetch"),
];

// The address spaces of ARM bus errors (UEFI 2.8, N.2.4.4.1).
const ARM_SPACES: [Name; 3] = [
    name!(0, "external memory"),
    name!(1, "internal memory"),
    name!(3, "device memory"),
];

// The access modes of ARM bus errors (UEFI 2.8, N.2.4.4.1).
const ACCESS_MODES: [Name; 2] = [name!(0, "secure"), name!(1, "normal")];

// The types of ARM register contexts (UEFI 2.8, N.2.4.4.2).
const ARM_CONTEXT_TYPES: [Name; 9] = [
    name!(0, "AArch32 general"),
    name!(1, "AArch32 EL1"),
    name!(2, "AArch32 EL2"),
    name!(3, "AArch32 secure"),
    name!(4, "AArch64 general"),
    name!(5, "AArch64 EL1"),
    name!(6, "AArch64 EL2"),
    name!(7, "AArch64 EL3"),
    name!(8, "system register"),
];

// An ARM processor error (UEFI 2.8, N.2.4.4).
const ARM_PROCESSOR_FIELDS: [Field; 8] = [
    field!(4, 2, None, "ERR_INFO_NUM", Decimal),
    field!(6, 2, None, "CONTEXT_INFO_NUM", Decimal),
    field!(8, 4, None, "section length", Decimal),
    field!(12, 1, Some(1), "error affinity level", Decimal),
    field!(16, 8, Some(0), "MPIDR_EL1", Hexadecimal),
    field!(24, 8, None, "MIDR_EL1", Hexadecimal),
    field!(32, 4, Some(2), "running state", Flags(&RUNNING_STATES)),
    field!(36, 4, Some(2), "PSCI state", Hexadecimal),
];

// A part of it: error information.
const ARM_ERROR_FIELDS: [Field; 8] = [
    field!(0, 1, None, "version", Decimal),
    field!(1, 1, None, "length", Decimal),
    field!(4, 1, None, "type", Flags(&ARM_ERROR_TYPES)),
    field!(5, 2, Some(0), "multiple error", Decimal),
    field!(7, 1, Some(1), "flags", Flags(&ARM_ERROR_FLAGS)),
    field!(8, 8, Some(2), "error information", Hexadecimal),
    field!(16, 8, Some(3), "virtual fault address", Hexadecimal),
    field!(24, 8, Some(4), "physical fault address", Hexadecimal),
];

// What stands inside: cache error.
const ARM_CACHE_ERROR_FIELDS: [Field; 7] = [
    bits!(0, 8, Some(0), "transaction type", 16, 2, &TRANSACTIONS),
    bits!(0, 8, Some(1), "operation", 18, 4, &ARM_OPERATIONS),
    bits!(0, 8, Some(2), "level", 22, 3, &NO_NAMES),
    bits!(0, 8, Some(3), "processor context corrupt", 25, 1, &NO_NAMES),
    bits!(0, 8, Some(4), "corrected", 26, 1, &NO_NAMES),
    bits!(0, 8, Some(5), "precise PC", 27, 1, &NO_NAMES),
    bits!(0, 8, Some(6), "restartable PC", 28, 1, &NO_NAMES),
];

// What stands inside: TLB error.
const ARM_TLB_ERROR_FIELDS: [Field; 7] = [
    bits!(0, 8, Some(0), "transaction type", 16, 2, &TRANSACTIONS),
    bits!(0, 8, Some(1), "operation", 18, 4, &ARM_TLB_OPERATIONS),
    bits!(0, 8, Some(2), "level", 22, 3, &NO_NAMES),
    bits!(0, 8, Some(3), "processor context corrupt", 25, 1, &NO_NAMES),
    bits!(0, 8, Some(4), "corrected", 26, 1, &NO_NAMES),
    bits!(0, 8, Some(5), "precise PC", 27, 1, &NO_NAMES),
    bits!(0, 8, Some(6), "restartable PC", 28, 1, &NO_NAMES),
];

// What stands inside: bus error.
const ARM_BUS_ERROR_FIELDS: [Field; 12] = [
    bits!(0, 8, Some(0), "transaction type", 16, 2, &TRANSACTIONS),
    bits!(0, 8, Some(1), "operation", 18, 4, &ARM_BUS_OPERATIONS),
    bits!(0, 8, Some(2), "level", 22, 3, &NO_NAMES),
    bits!(0, 8, Some(3), "processor context corrupt", 25, 1, &NO_NAMES),
    bits!(0, 8, Some(4), "corrected", 26, 1, &NO_NAMES),
    bits!(0, 8, Some(5), "precise PC", 27, 1, &NO_NAMES),
    bits!(0, 8, Some(6), "restartable PC", 28, 1, &NO_NAMES),
    bits!(0, 8, Some(7), "participation type", 29, 2, &PARTICIPATIONS),
    bits!(0, 8, Some(8), "time out", 31, 1, &NO_NAMES),
    bits!(0, 8, Some(9), "address space", 32, 2, &ARM_SPACES),
    bits!(0, 8, Some(10), "memory access attributes", 34, 9, &NO_NAMES),
    bits!(0, 8, Some(11), "access mode", 43, 1, &ACCESS_MODES),
];

// A part of it: context.
const ARM_CONTEXT_FIELDS: [Field; 3] = [
    field!(0, 2, None, "version", Decimal),
    field!(
        2,
        2,
        None,
        "register context type",
        OneOf(&ARM_CONTEXT_TYPES)
    ),
    field!(4, 4, None, "register array size", Decimal),
];

// What stands inside: the general purpose registers of AArch32.
const AARCH32_REGISTERS: [&str; 16] = [
    "R0", "R1", "R2", "R3", "R4", "R5", "R6", "R7", "R8", "R9", "R10", "R11", "R12", "R13", "R14",
    "R15",
];

// What stands inside: the EL1 registers of AArch32.
const AARCH32_EL1: [&str; 24] = [
    "DFAR", "DFSR", "IFAR", "ISR", "MAIR0", "MAIR1", "MIDR", "MPIDR", "NMRR", "PRRR", "SCTLR_NS",
    "SPSR", "SPSR_abt", "SPSR_fiq", "SPSR_irq", "SPSR_svc", "SPSR_und", "TPIDRPRW", "TPIDRURO",
    "TPIDRURW", "TTBCR", "TTBR0", "TTBR1", "DACR",
];

// What stands inside: the EL2 registers of AArch32.
const AARCH32_EL2: [&str; 16] = [
    "ELR_hyp",
    "HAMAIR0",
    "HAMAIR1",
    "HCR",
    "HCR2",
    "HDFAR",
    "HIFAR",
    "HPFAR",
    "HSR",
    "HTCR",
    "HTPIDR",
    "HTTBR",
    "SPSR_hyp",
    "VTCR",
    "VTTBR",
    "DACR32_EL2",
];

// What stands inside: the secure registers of AArch32.
const AARCH32_SECURE: [&str; 2] = ["SCTLR_S", "SPSR_mon"];

// What stands inside: the general purpose registers of AArch64.
const AARCH64_REGISTERS: [&str; 32] = [
    "X0", "X1", "X2", "X3", "X4", "X5", "X6", "X7", "X8", "X9", "X10", "X11", "X12", "X13", "X14",
    "X15", "X16", "X17", "X18", "X19", "X20", "X21", "X22", "X23", "X24", "X25", "X26", "X27",
    "X28", "X29", "X30", "SP",
];

// What stands inside: the EL1 registers of AArch64.
const AARCH64_EL1: [&str; 17] = [
    "ELR_EL1",
    "ESR_EL1",
    "FAR_EL1",
    "ISR_EL1",
    "MAIR_EL1",
    "MIDR_EL1",
    "MPIDR_EL1",
    "SCTLR_EL1",
    "SP_EL0",
    "SP_EL1",
    "SPSR_EL1",
    "TCR_EL1",
    "TPIDR_EL0",
    "TPIDR_EL1",
    "TPIDRRO_EL0",
    "TTBR0_EL1",
    "TTBR1_EL1",
];

// What stands inside: the EL2 registers of AArch64.
const AARCH64_EL2: [&str; 15] = [
    "ELR_EL2",
    "ESR_EL2",
    "FAR_EL2",
    "HACR_EL2",
    "HCR_EL2",
    "HPFAR_EL2",
    "MAIR_EL2",
    "SCTLR_EL2",
    "SP_EL2",
    "SPSR_EL2",
    "TCR_EL2",
    "TPIDR_EL2",
    "TTBR0_EL2",
    "VTCR_EL2",
    "VTTBR_EL2",
];

// What stands inside: the EL3 registers of AArch64.
const AARCH64_EL3: [&str; 10] = [
    "ELR_EL3",
    "ESR_EL3",
    "FAR_EL3",
    "MAIR_EL3",
    "SCTLR_EL3",
    "SP_EL3",
    "SPSR_EL3",
    "TCR_EL3",
    "TPIDR_EL3",
    "TTBR0_EL3",
];

const ARM_ERROR_INSIDE: [Inner; 3] = [
    Inner {
        name: "cache error",
        bit: Some(2),
        key: Key::Number {
            at: 4,
            width: 1,
            number: 2,
        },
        at: 8,
        content: Content::Fields(&ARM_CACHE_ERROR_FIELDS),
    },
    Inner {
        name: "TLB error",
        bit: Some(2),
        key: Key::Number {
            at: 4,
            width: 1,
            number: 4,
        },
        at: 8,
        content: Content::Fields(&ARM_TLB_ERROR_FIELDS),
    },
    Inner {
        name: "bus error",
        bit: Some(2),
        key: Key::Number {
            at: 4,
            width: 1,
            number: 8,
        },
        at: 8,
        content: Content::Fields(&ARM_BUS_ERROR_FIELDS),
    },
];

const ARM_CONTEXT_INSIDE: [Inner; 8] = [
    Inner {
        name: "registers",
        bit: None,
        key: Key::Number {
            at: 2,
            width: 2,
            number: 0,
        },
        at: 8,
        content: Content::Registers {
            width: 4,
            names: &AARCH32_REGISTERS,
        },
    },
    Inner {
        name: "registers",
        bit: None,
        key: Key::Number {
            at: 2,
            width: 2,
            number: 1,
        },
        at: 8,
        content: Content::Registers {
            width: 4,
            names: &AARCH32_EL1,
        },
    },
    Inner {
        name: "registers",
        bit: None,
        key: Key::Number {
            at: 2,
            width: 2,
            number: 2,
        },
        at: 8,
        content: Content::Registers {
            width: 4,
            names: &AARCH32_EL2,
        },
    },
    Inner {
        name: "registers",
        bit: None,
        key: Key::Number {
            at: 2,
            width: 2,
            number: 3,
        },
        at: 8,
        content: Content::Registers {
            width: 4,
            names: &AARCH32_SECURE,
        },
    },
    Inner {
        name: "registers",
        bit: None,
        key: Key::Number {
            at: 2,
            width: 2,
            number: 4,
        },
        at: 8,
        content: Content::Registers {
            width: 8,
            names: &AARCH64_REGISTERS,
        },
    },
    Inner {
        name: "registers",
        bit: None,
        key: Key::Number {
            at: 2,
            width: 2,
            number: 5,
        },
        at: 8,
        content: Content::Registers {
            width: 8,
            names: &AARCH64_EL1,
        },
    },
    Inner {
        name: "registers",
        bit: None,
        key: Key::Number {
            at: 2,
            width: 2,
            number: 6,
        },
        at: 8,
        content: Content::Registers {
            width: 8,
            names: &AARCH64_EL2,
        },
    },
    Inner {
        name: "registers",
        bit: None,
        key: Key::Number {
            at: 2,
            width: 2,
            number: 7,
        },
        at: 8,
        content: Content::Registers {
            width: 8,
            names: &AARCH64_EL3,
        },
    },
];

const ARM_PROCESSOR_PARTS: [Parts; 2] = [
    Parts {
        name: "error information",
        count: Count {
            at: 4,
            width: 2,
            low: 0,
            bits: 16,
        },
        size: Size::Fixed(32),
        valid_at: 2,
        fields: &ARM_ERROR_FIELDS,
        inner: &ARM_ERROR_INSIDE,
    },
    Parts {
        name: "context",
        count: Count {
            at: 6,
            width: 2,
            low: 0,
            bits: 16,
        },
        size: Size::Told {
            at: 4,
            width: 4,
            more: 8,
        },
        valid_at: 0,
        fields: &ARM_CONTEXT_FIELDS,
        inner: &ARM_CONTEXT_INSIDE,
    },
];

const ARM_PROCESSOR: Layout = Layout {
    valid_at: 0,
    fields: &ARM_PROCESSOR_FIELDS,
    parts_at: 40,
    parts: &ARM_PROCESSOR_PARTS,
};

/// The fields of an ARM processor error (UEFI 2.8, N.2.4.4).
#[tactic(auto, unfolding(crate::specs::Arm::arm_processor))]
pub(crate) fn arm_processor() -> Layout
    ensures layout { structure_of result ≡ arm_processor }
    ensures sound { IsTrue (is_sound_structure (structure_of result)) }
{
    ARM_PROCESSOR
}
