// A group of an item's fields.
ghost use Rattle.std.specs.Prelude.{◌≡◌, ◌+◌, ◌<◌, ◌^◌, ◌++◌, [], ◌∷◌, length, codes, IsTrue, Some, None, OnOk};
ghost use Rattle.field_lines.specs.Layouts.{is_sound_structure};
ghost use Rattle.field_lines.specs.Code.{structure_of};
ghost use Rattle.field_lines.specs.Styles.{place_text};
ghost use Rattle.apei_bytes.specs.Guid.{guid_text};
ghost use Rattle.show_findings.specs.Subjects.{section_title};
ghost use Rattle.show_items.specs.Groups.{bytes_group, bytes_json, bytes_lines, fields_group, fields_json, fields_lines, guid_json, guid_line, head_of, index_text, members, name_json, named_text, title, type_text};
ghost use Rattle.show_items.specs.Sheets.{AddsGroups};

use crate::sheet::{Form, Sheet};
use crate::text::{add, add_guid, add_number, add_quoted};
use apei_bytes::Guid;
use field_lines::{Json, Layout, Plain, add_decimal, add_digits, add_layout};
use show_findings::section_title;
use std::alloc::AllocError;

/// A group: its name, its number where there are several, the type of a section, and where it begins in its item.
#[derive(Clone, Copy)]
pub(crate) struct Group {
    pub name: &'static str,
    pub index: Option<u64>,
    pub kind: Option<Guid>,
    pub base: u64,
}

// How far fields are indented below the name of their group.
const INDENT: u8 = 4;

impl Sheet<'_> {
    /// Adds a group: its name, and each field of a layout.
    pub(crate) fn add_group(
        &mut self,
        group: &Group,
        layout: &Layout,
        body: &[u8],
    ) -> Result<(), AllocError>
        requires sound { IsTrue (is_sound_structure (structure_of layout.now)) }
        requires place { group.now.base + length body.now < 2 ^ 64 }
        ensures { OnOk result (AddsGroups (fields_group (head_of group.now) (structure_of layout.now) body.now ∷ [])
            (Some []) (Some []) self.old self.new) }
    {
        match self.form() {
            Form::Brief => Ok(()),
            Form::Text => {
                let places = self.has_places();
                add_fields(&mut self.out, places, group, layout, body)
            }
            Form::Json => {
                self.begin_group()?;
                add_object(&mut self.out, group, layout, body)
            }
        }
    }

    /// Adds a group of bytes whose fields nobody known names.
    pub(crate) fn add_bytes(&mut self, group: &Group, body: &[u8]) -> Result<(), AllocError>
        ensures { OnOk result (AddsGroups (bytes_group (head_of group.now) body.now ∷ [])
            (Some []) (Some []) self.old self.new) }
    {
        match self.form() {
            Form::Brief => Ok(()),
            Form::Text => {
                let places = self.has_places();
                add_digit_line(&mut self.out, places, group, body)
            }
            Form::Json => {
                self.begin_group()?;
                add_digit_object(&mut self.out, group, body)
            }
        }
    }
}

fn add_fields(
    out: &mut Vec<u8>,
    places: bool,
    group: &Group,
    layout: &Layout,
    body: &[u8],
) -> Result<(), AllocError>
    requires sound { IsTrue (is_sound_structure (structure_of layout.now)) }
    requires place { group.now.base + length body.now < 2 ^ 64 }
    ensures { OnOk result (out.new.items ≡ out.old.items ++ fields_lines places (head_of group.now)
        (structure_of layout.now) body.now) }
{
    let style = Plain {
        indent: INDENT,
        places,
    };
    add_title(out, group)?;
    add_layout(&style, group.base, layout, body, out)
}

fn add_object(
    out: &mut Vec<u8>,
    group: &Group,
    layout: &Layout,
    body: &[u8],
) -> Result<(), AllocError>
    requires sound { IsTrue (is_sound_structure (structure_of layout.now)) }
    requires place { group.now.base + length body.now < 2 ^ 64 }
    ensures { OnOk result (out.new.items ≡ out.old.items ++ fields_json (head_of group.now)
        (structure_of layout.now) body.now) }
{
    add_members(out, group)?;
    add_layout(&Json, group.base, layout, body, out)?;
    add(out, "}")
}

fn add_digit_line(
    out: &mut Vec<u8>,
    places: bool,
    group: &Group,
    body: &[u8],
) -> Result<(), AllocError>
    ensures { OnOk result (out.new.items ≡ out.old.items ++ bytes_lines places (head_of group.now) body.now) }
{
    add_title(out, group)?;
    add_place(out, places, group.base)?;
    add(out, "bytes: ")?;
    add_digits(body, out)?;
    add(out, "\n")
}

fn add_digit_object(out: &mut Vec<u8>, group: &Group, body: &[u8]) -> Result<(), AllocError>
    ensures { OnOk result (out.new.items ≡ out.old.items ++ bytes_json (head_of group.now) body.now) }
{
    add_members(out, group)?;
    add(out, ",\"bytes\":\"")?;
    add_digits(body, out)?;
    add(out, "\"}")
}

/// Adds what stands before a field.
pub(crate) fn add_place(out: &mut Vec<u8>, places: bool, base: u64) -> Result<(), AllocError>
    ensures { OnOk result (out.new.items ≡ out.old.items ++ codes "    " ++ place_text places base) }
{
    add(out, "    ")?;
    if !places {
        return Ok(());
    }
    add(out, "[")?;
    add_decimal(base, out)?;
    add(out, "] ")
}

/// Adds the line of a group: its name, its number, and the type of a section.
pub(crate) fn add_title(out: &mut Vec<u8>, group: &Group) -> Result<(), AllocError>
    ensures { OnOk result (out.new.items ≡ out.old.items ++ title (head_of group.now)) }
{
    add(out, "  ")?;
    add(out, group.name)?;
    add_index(out, group.index)?;
    add_kind(out, &group.kind)?;
    add(out, "\n")
}

fn add_index(out: &mut Vec<u8>, index: Option<u64>) -> Result<(), AllocError>
    ensures { OnOk result (out.new.items ≡ out.old.items ++ index_text index) }
{
    let Some(index) = index else {
        return Ok(());
    };
    add(out, " ")?;
    add_decimal(index, out)
}

fn add_kind(out: &mut Vec<u8>, kind: &Option<Guid>) -> Result<(), AllocError>
    ensures { OnOk result (out.new.items ≡ out.old.items ++ guid_line kind.now) }
{
    match kind {
        Some(kind) => add_type(out, kind),
        None => Ok(()),
    }
}

fn add_type(out: &mut Vec<u8>, kind: &Guid) -> Result<(), AllocError>
    ensures { OnOk result (out.new.items ≡ out.old.items ++ type_text kind.now) }
{
    add(out, " ")?;
    add_type_name(out, kind)?;
    add_guid(out, kind)
}

// The name of a section of a type, where it has one.
fn add_type_name(out: &mut Vec<u8>, kind: &Guid) -> Result<(), AllocError>
    ensures { OnOk result (out.new.items ≡ out.old.items ++ named_text (section_title (guid_text kind.now))) }
{
    let Some(name) = section_title(kind) else {
        return Ok(());
    };
    add(out, name)?;
    add(out, " ")
}

/// Adds the first members of a group's object.
pub(crate) fn add_members(out: &mut Vec<u8>, group: &Group) -> Result<(), AllocError>
    ensures { OnOk result (out.new.items ≡ out.old.items ++ members (head_of group.now)) }
{
    add_name(out, group)?;
    add(out, ",\"index\":")?;
    add_number(out, group.index)?;
    add(out, ",\"guid\":")?;
    add_guid_value(out, &group.kind)
}

fn add_name(out: &mut Vec<u8>, group: &Group) -> Result<(), AllocError>
    ensures { OnOk result (out.new.items ≡ out.old.items ++ name_json group.now.base group.now.name.now) }
{
    add(out, "{\"offset\":")?;
    add_decimal(group.base, out)?;
    add(out, ",\"group\":")?;
    add_quoted(out, group.name)
}

fn add_guid_value(out: &mut Vec<u8>, kind: &Option<Guid>) -> Result<(), AllocError>
    ensures { OnOk result (out.new.items ≡ out.old.items ++ guid_json kind.now) }
{
    let Some(kind) = kind else {
        return add(out, "null");
    };
    add(out, "\"")?;
    add_guid(out, kind)?;
    add(out, "\"")
}
