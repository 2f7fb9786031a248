// A body with parts that repeat.
ghost use Rattle.std.specs.Prelude.{◌≡◌, ◌<◌, ◌≤◌, ◌+◌, ◌^◌, ◌++◌, length, drop, map, min, OnOk, IfOk, IsTrue};
ghost use Rattle.base_model.specs.Bytes.{part};
ghost use Rattle.field_lines.specs.Numbers.{validation};
ghost use Rattle.field_lines.specs.Layouts.{is_sound_structure, is_sound_group, are_sound_groups, is_sound_measure, is_sound_sign, are_sound_inside, structure_text, groups_text, group_text, group_end, parts_told, part_text, part_size, all_inside_text, inside_text, has_sign, has_guid, is_told, is_there, end_text};
ghost use Rattle.field_lines.specs.Fields.{are_sound};
ghost use Rattle.field_lines.specs.Walks.{fields_text, shows_any};
ghost use Rattle.field_lines.specs.Code.{content_fields, structure_of, group_of, measure_of, sign_of, inside_of};

use crate::layout::{Content, Inner, Key, Layout, Parts, Size};
use crate::number::{bits_of, number_in};
use crate::style::{Location, Mark, Style};
use crate::walk::{add_fields, add_registers, is_valid, shows_any, shows_register, validation};
use apei_bytes::{bytes_at, guid_at};
use std::alloc::AllocError;

/// Appends the fields of a body that begins at a place, and then its parts, as many as it says and as are within it, as a style writes them. Where
/// there is no memory some may have been appended.
pub fn add_layout<S: Style>(
    style: &S,
    base: u64,
    layout: &Layout,
    body: &[u8],
    out: &mut Vec<u8>,
) -> Result<(), AllocError>
    requires sound { IsTrue (is_sound_structure (structure_of layout.now)) }
    requires place { base + length body.now < 2 ^ 64 }
    ensures { OnOk result (out.new.items ≡ out.old.items ++ structure_text (S.text style.now)
        (S.heading style.now) base (structure_of layout.now) body.now) }
{
    let location = Location { depth: 0, base };
    add_fields(style, location, layout.valid_at, layout.fields, body, out)?;
    let at = (layout.parts_at as usize).min(body.len());
    add_groups(style, base, layout.parts, at, body, out)
}

fn add_groups<S: Style>(
    style: &S,
    base: u64,
    mut groups: &[Parts],
    start: usize,
    body: &[u8],
    out: &mut Vec<u8>,
) -> Result<(), AllocError>
    requires sound { IsTrue (are_sound_groups (map group_of groups.now)) }
    requires place { base + length body.now < 2 ^ 64 }
    requires start { start ≤ length body.now }
    ensures { OnOk result (out.new.items ≡ out.old.items ++ groups_text (S.text style.now)
        (S.heading style.now) base body.now (map group_of groups.entry.now) start) }
{
    let mut at = start;
    while let [group, rest @ ..] = groups {
        at = add_parts(style, base, group, at, body, out)?;
        groups = rest;
    }
    Ok(())
}

// Appends the parts of a group from a place on, and says where they end.
fn add_parts<S: Style>(
    style: &S,
    base: u64,
    group: &Parts,
    start: usize,
    body: &[u8],
    out: &mut Vec<u8>,
) -> Result<usize, AllocError>
    requires sound { IsTrue (is_sound_group (group_of group.now)) }
    requires place { base + length body.now < 2 ^ 64 }
    requires start { start ≤ length body.now }
    ensures text { OnOk result (out.new.items ≡ out.old.items ++ group_text (S.text style.now)
        (S.heading style.now) base body.now (group_of group.now) start) }
    ensures end { IfOk result (λ end. (end ≡ group_end body.now (group_of group.now) start) × (end ≤ length body.now)) }
{
    let mut left = parts_told(group, body);
    let mut index = 0;
    let mut at = start;
    while left > 0 && at < body.len() {
        let size = part_size(&group.size, &body[at..]);
        add_part(
            style,
            base + at as u64,
            group,
            index,
            bytes_at(body, at, size),
            out,
        )?;
        at += size;
        index += 1;
        left -= 1;
    }
    add_end(style, base + at as u64, index, out)?;
    Ok(at)
}

fn add_end<S: Style>(style: &S, base: u64, index: u64, out: &mut Vec<u8>) -> Result<(), AllocError>
    ensures { OnOk result (out.new.items ≡ out.old.items ++ end_text (S.heading style.now) index base) }
{
    if index == 0 {
        return Ok(());
    }
    style.mark(Location { depth: 0, base }, &Mark::EndParts, out)
}

// How many parts a body says that it has.
fn parts_told(group: &Parts, body: &[u8]) -> u64
    requires { IsTrue (is_sound_group (group_of group.now)) }
    ensures { result ≡ parts_told (group_of group.now) body.now }
{
    let count = &group.count;
    let number = number_in(body, count.at, count.width).unwrap_or(0);
    bits_of(number, count.low, count.bits)
}

// How many bytes the part has that stands first.
fn part_size(size: &Size, bytes: &[u8]) -> usize
    requires { IsTrue (is_sound_measure (measure_of size.now)) }
    ensures { result ≡ part_size (measure_of size.now) bytes.now }
{
    match *size {
        Size::Fixed(count) => (count as usize).min(bytes.len()),
        Size::Told { at, width, more } => {
            let number = number_in(bytes, at, width).unwrap_or(0);
            let told = number.saturating_add(more as u64);
            told.min(bytes.len() as u64) as usize
        }
        Size::Rest => bytes.len(),
    }
}

// Appends a part that begins at a place, with what stands inside.
fn add_part<S: Style>(
    style: &S,
    base: u64,
    group: &Parts,
    index: u64,
    bytes: &[u8],
    out: &mut Vec<u8>,
) -> Result<(), AllocError>
    requires sound { IsTrue (is_sound_group (group_of group.now)) }
    requires place { base + length bytes.now < 2 ^ 64 }
    ensures { OnOk result (out.new.items ≡ out.old.items ++ part_text (S.text style.now) (S.heading style.now)
        (group_of group.now) index base bytes.now) }
{
    let name = group.name;
    style.mark(
        Location { depth: 0, base },
        &Mark::Part { name, index },
        out,
    )?;
    let inside = Location { depth: 1, base };
    add_fields(style, inside, group.valid_at, group.fields, bytes, out)?;
    let valid = validation(bytes, group.valid_at);
    add_all_inside(style, base, valid, group.inner, bytes, out)?;
    style.mark(Location { depth: 0, base }, &Mark::End, out)
}

fn add_all_inside<S: Style>(
    style: &S,
    base: u64,
    valid: u64,
    mut inner: &[Inner],
    bytes: &[u8],
    out: &mut Vec<u8>,
) -> Result<(), AllocError>
    requires sound { IsTrue (are_sound_inside (map inside_of inner.now)) }
    requires place { base + length bytes.now < 2 ^ 64 }
    ensures { OnOk result (out.new.items ≡ out.old.items ++ all_inside_text (S.text style.now)
        (S.heading style.now) base valid bytes.now (map inside_of inner.entry.now)) }
{
    while let [first, rest @ ..] = inner {
        if is_there(first, valid, bytes) {
            add_inside(style, base, first, bytes, out)?;
        }
        inner = rest;
    }
    Ok(())
}

// Appends what stands inside a part.
fn add_inside<S: Style>(
    style: &S,
    base: u64,
    inner: &Inner,
    bytes: &[u8],
    out: &mut Vec<u8>,
) -> Result<(), AllocError>
    requires sound { IsTrue (are_sound (content_fields inner.now.content)) }
    requires place { base + length bytes.now < 2 ^ 64 }
    requires start { inner.now.at ≤ length bytes.now }
    ensures { OnOk result (out.new.items ≡ out.old.items ++ inside_text (S.text style.now)
        (S.heading style.now) base bytes.now (inside_of inner.now)) }
{
    let at = inner.at as usize;
    let start = base + at as u64;
    let outer = Location {
        depth: 1,
        base: start,
    };
    let name = inner.name;
    style.mark(outer, &Mark::Inner { name }, out)?;
    let location = Location {
        depth: 2,
        base: start,
    };
    add_content(style, location, &inner.content, &bytes[at..], out)?;
    style.mark(outer, &Mark::End, out)
}

fn add_content<S: Style>(
    style: &S,
    location: Location,
    content: &Content,
    bytes: &[u8],
    out: &mut Vec<u8>,
) -> Result<(), AllocError>
    requires sound { IsTrue (are_sound (content_fields content.now)) }
    requires place { location.base + length bytes.now < 2 ^ 64 }
    ensures { OnOk result (out.new.items ≡ out.old.items ++ fields_text
        (S.text style.now location.depth location.base) 0 (content_fields content.now) bytes.now) }
{
    match *content {
        Content::Fields(fields) => add_fields(style, location, 0, fields, bytes, out),
        Content::Registers { width, names } => {
            add_registers(style, location, width, names, bytes, out)
        }
    }
}

// Whether a part tells that something stands inside, of which there is a field to show.
fn is_there(inner: &Inner, valid: u64, bytes: &[u8]) -> bool
    requires { IsTrue (is_sound_sign (sign_of inner.now.key)) }
    ensures { result ≡ is_there valid bytes.now (inside_of inner.now) }
{
    is_told(inner, valid, bytes) && shows_content(&inner.content, &bytes[inner.at as usize..])
}

// Whether it begins within the part, a validation bit says so, and the part has its key.
fn is_told(inner: &Inner, valid: u64, bytes: &[u8]) -> bool
    requires { IsTrue (is_sound_sign (sign_of inner.now.key)) }
    ensures { result ≡ is_told valid bytes.now (inside_of inner.now) }
{
    inner.at as usize <= bytes.len() && is_valid(inner.bit, valid) && has_key(&inner.key, bytes)
}

fn shows_content(content: &Content, bytes: &[u8]) -> bool
    ensures { result ≡ shows_any 0 (content_fields content.now) bytes.now }
{
    match *content {
        Content::Fields(fields) => shows_any(fields, bytes),
        Content::Registers { width, names } => shows_register(width, names, bytes),
    }
}

fn has_key(key: &Key, bytes: &[u8]) -> bool
    requires { IsTrue (is_sound_sign (sign_of key.now)) }
    ensures { result ≡ has_sign (sign_of key.now) bytes.now }
{
    match *key {
        Key::Number { at, width, number } => number_in(bytes, at, width) == Some(number),
        Key::Guid { at, text } => has_guid(bytes, at as usize, text),
    }
}

fn has_guid(bytes: &[u8], at: usize, text: &[u8; 36]) -> bool
    requires { at < 2 ^ 16 }
    ensures { result ≡ has_guid bytes.now at text.now }
{
    if bytes.len() < at + 16 {
        return false;
    }
    let mut found = [0; 36];
    guid_at(bytes, at).text(&mut found);
    found == *text
}
