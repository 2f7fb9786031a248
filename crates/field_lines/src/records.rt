// The header of a record, and section descriptors (UEFI 2.8, N.2.1 and N.2.2).
ghost use Rattle.std.specs.Prelude.{◌≡◌, IsTrue, if◌then◌else◌};
ghost use Rattle.field_lines.specs.Layouts.{is_sound_structure};
ghost use Rattle.field_lines.specs.Code.{structure_of};
ghost use Rattle.field_lines.specs.Records.{record_header, linux_header, section_descriptor};

use crate::Shape::{Decimal, Flags, Guid, Hexadecimal, OneOf, Seconds, Stamp, Text};
use crate::section_rows::{NO_PARTS, field, name};
use crate::{Field, Layout, Name};

// The severities of records and sections (UEFI 2.8, N.2.1).
const SEVERITIES: [Name; 4] = [
    name!(0, "recoverable"),
    name!(1, "fatal"),
    name!(2, "corrected"),
    name!(3, "informational"),
];

// The validation bits of a record (UEFI 2.8, N.2.1).
const RECORD_VALIDITY: [Name; 3] = [
    name!(0, "platform ID"),
    name!(1, "timestamp"),
    name!(2, "partition ID"),
];

// The flags of a record (UEFI 2.8, N.2.1.2).
const RECORD_FLAGS: [Name; 3] = [
    name!(0, "recovered"),
    name!(1, "previous error"),
    name!(2, "simulated"),
];

// The validation bits of a section (UEFI 2.8, N.2.2).
const SECTION_VALIDITY: [Name; 2] = [name!(0, "FRU ID"), name!(1, "FRU text")];

// The flags of a section (UEFI 2.8, N.2.2).
pub(crate) const SECTION_FLAGS: [Name; 8] = [
    name!(0, "primary"),
    name!(1, "containment warning"),
    name!(2, "reset"),
    name!(3, "error threshold exceeded"),
    name!(4, "resource not accessible"),
    name!(5, "latent error"),
    name!(6, "propagated"),
    name!(7, "overflow"),
];

// The header of a record (UEFI 2.8, N.2.1).
const RECORD_HEADER_FIELDS: [Field; 15] = [
    field!(0, 4, None, "signature start", Text),
    field!(4, 2, None, "revision", Hexadecimal),
    field!(6, 4, None, "signature end", Hexadecimal),
    field!(10, 2, None, "section count", Decimal),
    field!(12, 4, None, "error severity", OneOf(&SEVERITIES)),
    field!(16, 4, None, "validation bits", Flags(&RECORD_VALIDITY)),
    field!(20, 4, None, "record length", Decimal),
    field!(24, 8, Some(1), "timestamp", Stamp),
    field!(32, 16, Some(0), "platform ID", Guid),
    field!(48, 16, Some(2), "partition ID", Guid),
    field!(64, 16, None, "creator ID", Guid),
    field!(80, 16, None, "notification type", Guid),
    field!(96, 8, None, "record ID", Hexadecimal),
    field!(104, 4, None, "flags", Flags(&RECORD_FLAGS)),
    field!(108, 8, None, "persistence information", Hexadecimal),
];

const RECORD_HEADER: Layout = Layout {
    valid_at: 16,
    fields: &RECORD_HEADER_FIELDS,
    parts_at: 0,
    parts: &NO_PARTS,
};

// The header of a record of Linux's, whose time is in seconds.
const LINUX_HEADER_FIELDS: [Field; 15] = [
    field!(0, 4, None, "signature start", Text),
    field!(4, 2, None, "revision", Hexadecimal),
    field!(6, 4, None, "signature end", Hexadecimal),
    field!(10, 2, None, "section count", Decimal),
    field!(12, 4, None, "error severity", OneOf(&SEVERITIES)),
    field!(16, 4, None, "validation bits", Flags(&RECORD_VALIDITY)),
    field!(20, 4, None, "record length", Decimal),
    field!(24, 8, Some(1), "timestamp", Seconds),
    field!(32, 16, Some(0), "platform ID", Guid),
    field!(48, 16, Some(2), "partition ID", Guid),
    field!(64, 16, None, "creator ID", Guid),
    field!(80, 16, None, "notification type", Guid),
    field!(96, 8, None, "record ID", Hexadecimal),
    field!(104, 4, None, "flags", Flags(&RECORD_FLAGS)),
    field!(108, 8, None, "persistence information", Hexadecimal),
];

const LINUX_HEADER: Layout = Layout {
    valid_at: 16,
    fields: &LINUX_HEADER_FIELDS,
    parts_at: 0,
    parts: &NO_PARTS,
};

// A section descriptor (UEFI 2.8, N.2.2).
const SECTION_DESCRIPTOR_FIELDS: [Field; 9] = [
    field!(0, 4, None, "section offset", Decimal),
    field!(4, 4, None, "section length", Decimal),
    field!(8, 2, None, "revision", Hexadecimal),
    field!(10, 1, None, "validation bits", Flags(&SECTION_VALIDITY)),
    field!(12, 4, None, "flags", Flags(&SECTION_FLAGS)),
    field!(16, 16, None, "section type", Guid),
    field!(32, 16, Some(0), "FRU ID", Guid),
    field!(48, 4, None, "section severity", OneOf(&SEVERITIES)),
    field!(52, 20, Some(1), "FRU text", Text),
];

const SECTION_DESCRIPTOR: Layout = Layout {
    valid_at: 10,
    fields: &SECTION_DESCRIPTOR_FIELDS,
    parts_at: 0,
    parts: &NO_PARTS,
};

/// The fields of the header of a record (UEFI 2.8, N.2.1), whose time is in seconds since 1970 where Linux wrote it.
pub fn record_header(linux: bool) -> Layout
    ensures layout { structure_of result ≡ (if linux then linux_header else record_header) }
    ensures sound { IsTrue (is_sound_structure (structure_of result)) }
{
    if linux { LINUX_HEADER } else { RECORD_HEADER }
}

/// The fields of a section descriptor (UEFI 2.8, N.2.2).
pub fn section_descriptor() -> Layout
    ensures layout { structure_of result ≡ section_descriptor }
    ensures sound { IsTrue (is_sound_structure (structure_of result)) }
{
    SECTION_DESCRIPTOR
}
