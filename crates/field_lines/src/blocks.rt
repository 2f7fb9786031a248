// Error status blocks and their data entries (ACPI 6.4, 18.3.2.7.1).
ghost use Rattle.std.specs.Prelude.{◌≡◌, IsTrue, if◌then◌else◌, nat_lt};
ghost use Rattle.field_lines.specs.Layouts.{is_sound_structure};
ghost use Rattle.field_lines.specs.Code.{structure_of};
ghost use Rattle.field_lines.specs.Blocks.{block_status, short_data_entry, long_data_entry};

use crate::Shape::{Decimal, Flags, Guid, Hexadecimal, OneOf, Stamp, Text};
use crate::records::SECTION_FLAGS;
use crate::section_rows::{NO_NAMES, NO_PARTS, bits, field, name};
use crate::{Field, Layout, Name, Shape};

// The bits of a block status (ACPI 6.4, 18.3.2.7.1).
const BLOCK_STATUSES: [Name; 4] = [
    name!(0, "uncorrectable error"),
    name!(1, "correctable error"),
    name!(2, "multiple uncorrectable errors"),
    name!(3, "multiple correctable errors"),
];

// The severities of status blocks (ACPI 6.4, 18.3.2.7.1).
const BLOCK_SEVERITIES: [Name; 4] = [
    name!(0, "recoverable"),
    name!(1, "fatal"),
    name!(2, "corrected"),
    name!(3, "none"),
];

// The validation bits of a data entry (ACPI 6.4, 18.3.2.7.1).
const ENTRY_VALIDITY: [Name; 3] = [
    name!(0, "FRU ID"),
    name!(1, "FRU text"),
    name!(2, "timestamp"),
];

// A generic error status block (ACPI 6.4, 18.3.2.7.1).
const BLOCK_STATUS_FIELDS: [Field; 6] = [
    field!(0, 4, None, "block status", Flags(&BLOCK_STATUSES)),
    bits!(0, 4, None, "error data entry count", 4, 10, &NO_NAMES),
    field!(4, 4, None, "raw data offset", Decimal),
    field!(8, 4, None, "raw data length", Decimal),
    field!(12, 4, None, "data length", Decimal),
    field!(16, 4, None, "error severity", OneOf(&BLOCK_SEVERITIES)),
];

const BLOCK_STATUS: Layout = Layout {
    valid_at: 0,
    fields: &BLOCK_STATUS_FIELDS,
    parts_at: 0,
    parts: &NO_PARTS,
};

// A generic error data entry of a revision below 0x300 (ACPI 6.4, 18.3.2.7.1).
const SHORT_DATA_ENTRY_FIELDS: [Field; 8] = [
    field!(0, 16, None, "section type", Guid),
    field!(16, 4, None, "error severity", OneOf(&BLOCK_SEVERITIES)),
    field!(20, 2, None, "revision", Hexadecimal),
    field!(22, 1, None, "validation bits", Flags(&ENTRY_VALIDITY)),
    field!(23, 1, None, "flags", Flags(&SECTION_FLAGS)),
    field!(24, 4, None, "error data length", Decimal),
    field!(28, 16, Some(0), "FRU ID", Guid),
    field!(44, 20, Some(1), "FRU text", Text),
];

const SHORT_DATA_ENTRY: Layout = Layout {
    valid_at: 22,
    fields: &SHORT_DATA_ENTRY_FIELDS,
    parts_at: 0,
    parts: &NO_PARTS,
};

// One from revision 0x300 on, with a time.
const LONG_DATA_ENTRY_FIELDS: [Field; 9] = [
    field!(0, 16, None, "section type", Guid),
    field!(16, 4, None, "error severity", OneOf(&BLOCK_SEVERITIES)),
    field!(20, 2, None, "revision", Hexadecimal),
    field!(22, 1, None, "validation bits", Flags(&ENTRY_VALIDITY)),
    field!(23, 1, None, "flags", Flags(&SECTION_FLAGS)),
    field!(24, 4, None, "error data length", Decimal),
    field!(28, 16, Some(0), "FRU ID", Guid),
    field!(44, 20, Some(1), "FRU text", Text),
    field!(64, 8, Some(2), "timestamp", Stamp),
];

const LONG_DATA_ENTRY: Layout = Layout {
    valid_at: 22,
    fields: &LONG_DATA_ENTRY_FIELDS,
    parts_at: 0,
    parts: &NO_PARTS,
};

/// The fields of a generic error status block (ACPI 6.4, 18.3.2.7.1).
pub fn block_status() -> Layout
    ensures layout { structure_of result ≡ block_status }
    ensures sound { IsTrue (is_sound_structure (structure_of result)) }
{
    BLOCK_STATUS
}

/// The fields of a generic error data entry of a revision (ACPI 6.4, 18.3.2.7.1).
pub fn data_entry(revision: u16) -> Layout
    ensures layout { structure_of result ≡ (if nat_lt revision 0x300 then short_data_entry else long_data_entry) }
    ensures sound { IsTrue (is_sound_structure (structure_of result)) }
{
    if revision < 0x300 {
        SHORT_DATA_ENTRY
    } else {
        LONG_DATA_ENTRY
    }
}
