// Linux's own sections: a machine check, `struct mce` of its arch/x86/include/uapi/asm/mce.h, and messages.
ghost use Rattle.std.specs.Prelude.{◌≡◌, IsTrue};
ghost use Rattle.field_lines.specs.Layouts.{is_sound_structure};
ghost use Rattle.field_lines.specs.Code.{structure_of};
ghost use Rattle.field_lines.specs.Linux.{linux_machine_check, linux_dmesg};

use crate::Shape::{Decimal, Hexadecimal, Lines, OneOf, Seconds};
use crate::section_rows::{NO_PARTS, field, name};
use crate::{Field, Layout, Name};

// The processor vendors as Linux numbers them.
const VENDORS: [Name; 10] = [
    name!(0, "Intel"),
    name!(1, "Cyrix"),
    name!(2, "AMD"),
    name!(3, "UMC"),
    name!(5, "Centaur"),
    name!(7, "Transmeta"),
    name!(8, "NSC"),
    name!(9, "Hygon"),
    name!(10, "Zhaoxin"),
    name!(11, "Vortex"),
];

// Linux's machine check.
const LINUX_MACHINE_CHECK_FIELDS: [Field; 24] = [
    field!(0, 8, None, "status", Hexadecimal),
    field!(8, 8, None, "misc", Hexadecimal),
    field!(16, 8, None, "addr", Hexadecimal),
    field!(24, 8, None, "mcgstatus", Hexadecimal),
    field!(32, 8, None, "ip", Hexadecimal),
    field!(40, 8, None, "tsc", Hexadecimal),
    field!(48, 8, None, "time", Seconds),
    field!(56, 1, None, "cpuvendor", OneOf(&VENDORS)),
    field!(57, 1, None, "inject flags", Hexadecimal),
    field!(58, 1, None, "severity", Decimal),
    field!(60, 4, None, "cpuid", Hexadecimal),
    field!(64, 1, None, "cs", Hexadecimal),
    field!(65, 1, None, "bank", Decimal),
    field!(66, 1, None, "cpu", Decimal),
    field!(67, 1, None, "finished", Decimal),
    field!(68, 4, None, "extcpu", Decimal),
    field!(72, 4, None, "socketid", Decimal),
    field!(76, 4, None, "apicid", Decimal),
    field!(80, 8, None, "mcgcap", Hexadecimal),
    field!(88, 8, None, "synd", Hexadecimal),
    field!(96, 8, None, "ipid", Hexadecimal),
    field!(104, 8, None, "ppin", Hexadecimal),
    field!(112, 4, None, "microcode", Hexadecimal),
    field!(120, 8, None, "kflags", Hexadecimal),
];

const LINUX_MACHINE_CHECK: Layout = Layout {
    valid_at: 0,
    fields: &LINUX_MACHINE_CHECK_FIELDS,
    parts_at: 0,
    parts: &NO_PARTS,
};

// Linux's messages.
const LINUX_DMESG_FIELDS: [Field; 1] = [field!(0, 1, None, "text", Lines)];

const LINUX_DMESG: Layout = Layout {
    valid_at: 0,
    fields: &LINUX_DMESG_FIELDS,
    parts_at: 0,
    parts: &NO_PARTS,
};

/// The fields of Linux's machine check.
#[tactic(auto, unfolding(crate::specs::Linux::linux_machine_check))]
pub(crate) fn linux_machine_check() -> Layout
    ensures layout { structure_of result ≡ linux_machine_check }
    ensures sound { IsTrue (is_sound_structure (structure_of result)) }
{
    LINUX_MACHINE_CHECK
}

/// The fields of Linux's messages.
#[tactic(auto, unfolding(crate::specs::Linux::linux_dmesg))]
pub(crate) fn linux_dmesg() -> Layout
    ensures layout { structure_of result ≡ linux_dmesg }
    ensures sound { IsTrue (is_sound_structure (structure_of result)) }
{
    LINUX_DMESG
}
