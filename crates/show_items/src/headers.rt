// Headers that files begin with, field by field.
ghost use Rattle.std.specs.Prelude.{◌≡◌, [], IsTrue, OnOk, Some};
ghost use Rattle.base_model.specs.Bytes.{part};
ghost use Rattle.field_lines.specs.Layouts.{is_sound_structure};
ghost use Rattle.field_lines.specs.Code.{structure_of};
ghost use Rattle.show_items.specs.Headers.{IsHeader, medium_structure, qemu_structure};
ghost use Rattle.show_items.specs.Judged.{ShowsOne};

use crate::groups::Group;
use crate::sheet::{Item, Sheet};
use field_lines::{Field, Layout, Shape};
use show_findings::{Fault, seen_at};
use std::alloc::AllocError;

macro_rules! field {
    ($at:expr, $width:expr, $name:expr, $shape:expr) => {
        Field {
            at: $at,
            width: $width,
            bit: None,
            name: $name,
            shape: $shape,
        }
    };
}

// The storage of QEMU's acpi-erst: a map of identifiers stands behind these.
static QEMU: [Field; 6] = [
    field!(0, 8, "magic", Shape::Text),
    field!(8, 4, "record size", Shape::Decimal),
    field!(12, 4, "storage offset", Shape::Decimal),
    field!(16, 2, "version", Shape::Hexadecimal),
    field!(18, 2, "reserved", Shape::Hexadecimal),
    field!(20, 4, "record count", Shape::Decimal),
];

// The first sector of a medium.
static MEDIUM: [Field; 12] = [
    field!(0, 8, "signature", Shape::Text),
    field!(8, 4, "version", Shape::Decimal),
    field!(12, 4, "header length", Shape::Decimal),
    field!(16, 4, "sector size", Shape::Decimal),
    field!(20, 4, "sectors per slot", Shape::Decimal),
    field!(24, 4, "slots", Shape::Decimal),
    field!(28, 4, "reserved", Shape::Hexadecimal),
    field!(32, 8, "medium size", Shape::Decimal),
    field!(40, 4, "checksum", Shape::Hexadecimal),
    field!(44, 4, "reserved 2", Shape::Hexadecimal),
    field!(48, 1, "whole mark", Shape::Hexadecimal),
    field!(49, 1, "format mark", Shape::Hexadecimal),
];

/// The header of QEMU's storage of acpi-erst, 24 bytes.
pub(crate) fn qemu_header() -> Layout
    ensures layout { structure_of result ≡ qemu_structure }
    ensures sound { IsTrue (is_sound_structure (structure_of result)) }
{
    Layout {
        valid_at: 0,
        fields: &QEMU,
        parts_at: 0,
        parts: &[],
    }
}

/// The header of a medium of the library, 50 bytes.
pub(crate) fn medium_header() -> Layout
    ensures layout { structure_of result ≡ medium_structure }
    ensures sound { IsTrue (is_sound_structure (structure_of result)) }
{
    Layout {
        valid_at: 0,
        fields: &MEDIUM,
        parts_at: 0,
        parts: &[],
    }
}

/// Shows the header that a file begins with, which has so many bytes, and its fault.
pub(crate) fn show_header(
    sheet: &mut Sheet<'_>,
    kind: &'static str,
    sentence: &str,
    layout: &Layout,
    bytes: &[u8],
    len: usize,
    fault: &Option<Fault>,
) -> Result<(), AllocError>
    requires { IsTrue (is_sound_structure (structure_of layout.now)) }
    ensures { OnOk result (ShowsOne
        (IsHeader kind.now (structure_of layout.now) (part bytes.now 0 len) bytes.now fault.now)
        (Some []) (Some []) sheet.old sheet.new) }
{
    let item = Item {
        kind,
        at: Some(0),
        bytes,
    };
    sheet.begin(&item, sentence)?;
    let group = Group {
        name: "header",
        index: None,
        kind: None,
        base: 0,
    };
    sheet.add_group(&group, layout, seen_at(bytes, 0, len))?;
    sheet.end(fault)
}
