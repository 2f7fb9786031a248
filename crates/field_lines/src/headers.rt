// What stands before and behind the header of each table.
ghost use Rattle.std.specs.Prelude.{◌≡◌, IsTrue};
ghost use Rattle.field_lines.specs.Layouts.{is_sound_structure};
ghost use Rattle.field_lines.specs.Code.{structure_of};
ghost use Rattle.field_lines.specs.Headers.{table_header, hest_header, bert_fields};

use crate::Shape::{Decimal, Hexadecimal, Text};
use crate::table_rows::{NO_PARTS, field};
use crate::{Field, Layout};

// The header of a table (ACPI 6.4, 5.2.6).
const TABLE_HEADER_FIELDS: [Field; 9] = [
    field!(0, 4, None, "signature", Text),
    field!(4, 4, None, "length", Decimal),
    field!(8, 1, None, "revision", Decimal),
    field!(9, 1, None, "checksum", Hexadecimal),
    field!(10, 6, None, "OEM ID", Text),
    field!(16, 8, None, "OEM table ID", Text),
    field!(24, 4, None, "OEM revision", Hexadecimal),
    field!(28, 4, None, "creator ID", Text),
    field!(32, 4, None, "creator revision", Hexadecimal),
];

const TABLE_HEADER: Layout = Layout {
    valid_at: 0,
    fields: &TABLE_HEADER_FIELDS,
    parts_at: 0,
    parts: &NO_PARTS,
};

// What stands behind the header of a HEST (ACPI 6.4, 18.3.2).
const HEST_HEADER_FIELDS: [Field; 1] = [field!(36, 4, None, "error source count", Decimal)];

const HEST_HEADER: Layout = Layout {
    valid_at: 0,
    fields: &HEST_HEADER_FIELDS,
    parts_at: 0,
    parts: &NO_PARTS,
};

// What stands behind the header of a BERT (ACPI 6.4, 18.3.1).
const BERT_FIELDS_FIELDS: [Field; 2] = [
    field!(36, 4, None, "boot error region length", Decimal),
    field!(40, 8, None, "boot error region", Hexadecimal),
];

const BERT_FIELDS: Layout = Layout {
    valid_at: 0,
    fields: &BERT_FIELDS_FIELDS,
    parts_at: 0,
    parts: &NO_PARTS,
};

/// The fields of the header of a table (ACPI 6.4, 5.2.6).
pub fn table_header() -> Layout
    ensures layout { structure_of result ≡ table_header }
    ensures sound { IsTrue (is_sound_structure (structure_of result)) }
{
    TABLE_HEADER
}

/// The fields of what stands behind the header of a HEST (ACPI 6.4, 18.3.2).
pub fn hest_header() -> Layout
    ensures layout { structure_of result ≡ hest_header }
    ensures sound { IsTrue (is_sound_structure (structure_of result)) }
{
    HEST_HEADER
}

/// The fields of what stands behind the header of a BERT (ACPI 6.4, 18.3.1).
pub fn bert_fields() -> Layout
    ensures layout { structure_of result ≡ bert_fields }
    ensures sound { IsTrue (is_sound_structure (structure_of result)) }
{
    BERT_FIELDS
}
