// Fields as members of a JSON object.
ghost use Rattle.std.specs.Prelude.{◌≡◌, ◌≤◌, ◌<◌, ◌+◌, ◌^◌, ◌++◌, length, codes, OnOk, IsTrue};
ghost use Rattle.field_lines.specs.Fields.{is_sound, fits, hexadecimal, guid, stamp, all_bytes, text, all_lines};
ghost use Rattle.field_lines.specs.Texts.{escaped, escaped_text, escaped_lines};
ghost use Rattle.field_lines.specs.Values.{value_json, time_member, seconds_object};
ghost use Rattle.field_lines.specs.Layouts.{part_heading, inside_heading};
ghost use Rattle.field_lines.specs.Styles.{json_member, json_heading, json_offset};
ghost use Rattle.field_lines.specs.Code.{field_of, shown_of, heading_of};

use crate::digits::{
    add_decimal, add_digits, add_high_first, decimal_member, high, low, quote_high_first,
};
use crate::field::{Field, Shape};
use crate::names::{add_flags_object, add_named_object};
use crate::number::{bits_of, number_of};
use crate::plain::field_bytes;
use crate::register::add_register_object;
use crate::style::{Location, Mark, Style};
use crate::time::{YEAR_10000, add_date, add_stamp};
use crate::value::add_guid;
use std::alloc::AllocError;

/// A member for each field, `,"name":value`, with a comma before each. Parts are arrays of objects, and what stands inside a part is an object; the
/// first member of each, `offset`, says where it begins.
#[derive(Clone, Copy)]
pub struct Json;

impl Style for Json {
    ghost text = { λ style depth base. json_member };

    ghost heading = { λ style depth. json_heading };

    fn add(
        &self,
        location: Location,
        field: &Field,
        body: &[u8],
        out: &mut Vec<u8>,
    ) -> Result<(), AllocError> {
        out.extend_from_slice(b",\"")?;
        out.extend_from_slice(field.name.as_bytes())?;
        end_member(&field.shape, field_bytes(field, body), out)
    }

    fn mark(&self, location: Location, mark: &Mark, out: &mut Vec<u8>) -> Result<(), AllocError> {
        match *mark {
            Mark::Part { name, index } => add_part(name, index, location.base, out),
            Mark::Inner { name } => add_inner(name, location.base, out),
            Mark::End => {
                out.push(b'}')?;
                Ok(())
            }
            Mark::EndParts => {
                out.push(b']')?;
                Ok(())
            }
        }
    }
}

fn add_part(name: &str, index: u64, base: u64, out: &mut Vec<u8>) -> Result<(), AllocError>
    ensures { OnOk result (out.new.items ≡ out.old.items ++ json_heading base (part_heading name.now index)) }
{
    if index == 0 {
        out.extend_from_slice(b",\"")?;
        out.extend_from_slice(name.as_bytes())?;
        out.extend_from_slice(b"\":[")?;
    } else {
        out.push(b',')?;
    }
    add_offset(base, out)
}

fn add_inner(name: &str, base: u64, out: &mut Vec<u8>) -> Result<(), AllocError>
    ensures { OnOk result (out.new.items ≡ out.old.items ++ json_heading base (inside_heading name.now)) }
{
    out.extend_from_slice(b",\"")?;
    out.extend_from_slice(name.as_bytes())?;
    out.extend_from_slice(b"\":")?;
    add_offset(base, out)
}

fn add_offset(base: u64, out: &mut Vec<u8>) -> Result<(), AllocError>
    ensures { OnOk result (out.new.items ≡ out.old.items ++ json_offset base) }
{
    out.extend_from_slice(b"{\"offset\":")?;
    add_decimal(base, out)
}

// Appends the end of a member's name, and what the bytes of its field say.
fn end_member(shape: &Shape, bytes: &[u8], out: &mut Vec<u8>) -> Result<(), AllocError>
    requires { IsTrue (fits (shown_of shape.now) (length bytes.now)) }
    ensures { OnOk result (out.new.items ≡ out.old.items ++ codes "\":" ++ value_json (shown_of shape.now) bytes.now) }
{
    match *shape {
        Shape::Decimal => decimal_member(number_of(bytes), out),
        Shape::Hexadecimal => quote_high_first(bytes, out),
        _ => {
            out.extend_from_slice(b"\":")?;
            add_value(shape, bytes, out)
        }
    }
}

// Appends what the bytes of a field say.
fn add_value(shape: &Shape, bytes: &[u8], out: &mut Vec<u8>) -> Result<(), AllocError>
    requires { IsTrue (fits (shown_of shape.now) (length bytes.now)) }
    ensures { OnOk result (out.new.items ≡ out.old.items ++ value_json (shown_of shape.now) bytes.now) }
{
    match *shape {
        Shape::Decimal => add_decimal(number_of(bytes), out),
        Shape::Hexadecimal => add_hexadecimal_string(bytes, out),
        Shape::Guid => add_guid_string(bytes, out),
        Shape::Text => add_text_string(bytes, out),
        Shape::OneOf(names) => add_named_object(names, number_of(bytes), out),
        Shape::Flags(names) => add_flags_object(names, number_of(bytes), out),
        Shape::Bits { low, count, names } => {
            add_named_object(names, bits_of(number_of(bytes), low, count), out)
        }
        Shape::Stamp => add_stamp_string(bytes, out),
        Shape::Seconds => add_seconds_object(number_of(bytes), out),
        Shape::Register => add_register_object(bytes, out),
        Shape::Digits | Shape::Bytes => add_bytes_string(bytes, out),
        Shape::Lines => add_lines_string(bytes, out),
    }
}

fn add_hexadecimal_string(bytes: &[u8], out: &mut Vec<u8>) -> Result<(), AllocError>
    ensures { OnOk result (out.new.items ≡ out.old.items ++ value_json hexadecimal bytes.now) }
{
    out.extend_from_slice(b"\"0x")?;
    add_high_first(bytes, out)?;
    out.push(b'"')?;
    Ok(())
}

fn add_guid_string(bytes: &[u8], out: &mut Vec<u8>) -> Result<(), AllocError>
    requires { length bytes.now ≡ 16 }
    ensures { OnOk result (out.new.items ≡ out.old.items ++ value_json guid bytes.now) }
{
    out.push(b'"')?;
    add_guid(bytes, out)?;
    out.push(b'"')?;
    Ok(())
}

fn add_stamp_string(bytes: &[u8], out: &mut Vec<u8>) -> Result<(), AllocError>
    requires { length bytes.now ≡ 8 }
    ensures { OnOk result (out.new.items ≡ out.old.items ++ value_json stamp bytes.now) }
{
    out.push(b'"')?;
    add_stamp(bytes, out)?;
    out.push(b'"')?;
    Ok(())
}

fn add_bytes_string(bytes: &[u8], out: &mut Vec<u8>) -> Result<(), AllocError>
    ensures { OnOk result (out.new.items ≡ out.old.items ++ value_json all_bytes bytes.now) }
{
    out.push(b'"')?;
    add_digits(bytes, out)?;
    out.push(b'"')?;
    Ok(())
}

fn add_text_string(bytes: &[u8], out: &mut Vec<u8>) -> Result<(), AllocError>
    ensures { OnOk result (out.new.items ≡ out.old.items ++ value_json text bytes.now) }
{
    out.push(b'"')?;
    add_escaped_text(bytes, out)?;
    out.push(b'"')?;
    Ok(())
}

fn add_lines_string(bytes: &[u8], out: &mut Vec<u8>) -> Result<(), AllocError>
    ensures { OnOk result (out.new.items ≡ out.old.items ++ value_json all_lines bytes.now) }
{
    out.push(b'"')?;
    add_escaped_lines(bytes, out)?;
    out.push(b'"')?;
    Ok(())
}

// Appends the text before the first zero.
fn add_escaped_text(mut bytes: &[u8], out: &mut Vec<u8>) -> Result<(), AllocError>
    ensures { OnOk result (out.new.items ≡ out.old.items ++ escaped_text bytes.entry.now) }
{
    while let [byte, rest @ ..] = bytes {
        if *byte == 0 {
            break;
        }
        add_escaped(*byte, out)?;
        bytes = rest;
    }
    Ok(())
}

fn add_escaped_lines(mut bytes: &[u8], out: &mut Vec<u8>) -> Result<(), AllocError>
    ensures { OnOk result (out.new.items ≡ out.old.items ++ escaped_lines bytes.entry.now) }
{
    while let [byte, rest @ ..] = bytes {
        add_escaped(*byte, out)?;
        bytes = rest;
    }
    Ok(())
}

// Appends a byte as it stands in a JSON string, by its number where it can't stand for itself.
fn add_escaped(byte: u8, out: &mut Vec<u8>) -> Result<(), AllocError>
    ensures { OnOk result (out.new.items ≡ out.old.items ++ escaped byte) }
{
    if byte < 32 || byte > 126 || byte == b'"' || byte == b'\\' {
        out.extend_from_slice(&[b'\\', b'u', b'0', b'0', high(byte), low(byte)])
    } else {
        out.push(byte)?;
        Ok(())
    }
}

// Appends seconds and the time that they are, for the years up to 9999.
#[tactic(auto, unfolding(crate::specs::Values::seconds_object))]
fn add_seconds_object(seconds: u64, out: &mut Vec<u8>) -> Result<(), AllocError>
    ensures { OnOk result (out.new.items ≡ out.old.items ++ seconds_object seconds) }
{
    out.extend_from_slice(b"{\"seconds\":")?;
    add_decimal(seconds, out)?;
    add_time_member(seconds, out)?;
    out.push(b'}')?;
    Ok(())
}

fn add_time_member(seconds: u64, out: &mut Vec<u8>) -> Result<(), AllocError>
    ensures { OnOk result (out.new.items ≡ out.old.items ++ time_member seconds) }
{
    if seconds < YEAR_10000 {
        out.extend_from_slice(b",\"time\":\"")?;
        add_date(seconds, out)?;
        out.push(b'"')?;
    }
    Ok(())
}
