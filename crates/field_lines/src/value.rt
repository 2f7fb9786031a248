// What stands in a field, as text.
ghost use Rattle.std.specs.Prelude.{◌≡◌, ◌++◌, length, OnOk, IsTrue, codes, decimal};
ghost use Rattle.apei_bytes.specs.Guid.{guid_text};
ghost use Rattle.field_lines.specs.Fields.{fits};
ghost use Rattle.field_lines.specs.Values.{value_text, date_in_brackets};
ghost use Rattle.field_lines.specs.Code.{shown_of};

use crate::digits::{
    add_decimal, add_digits, add_high_first, add_lines, add_text, end_with_decimal,
    end_with_high_first,
};
use crate::field::Shape;
use crate::names::{add_flags, add_named};
use crate::number::{bits_of, number_of};
use crate::register::add_register;
use crate::time::{YEAR_10000, add_date, add_stamp};
use apei_bytes::guid_at;
use std::alloc::AllocError;

/// Appends what the bytes of a field say, behind a colon, and the end of the line. Most fields are numbers, which take one move or two.
pub(crate) fn end_with_value(
    shape: &Shape,
    bytes: &[u8],
    out: &mut Vec<u8>,
) -> Result<(), AllocError>
    requires { IsTrue (fits (shown_of shape.now) (length bytes.now)) }
    ensures { OnOk result (out.new.items ≡ out.old.items ++ codes ": " ++ value_text (shown_of shape.now) bytes.now ++
        codes "\n") }
{
    match *shape {
        Shape::Decimal => end_with_decimal(number_of(bytes), out),
        Shape::Hexadecimal => end_with_high_first(bytes, out),
        _ => {
            out.extend_from_slice(b": ")?;
            add_value(shape, bytes, out)?;
            out.extend_from_slice(b"\n")
        }
    }
}

// Appends what the bytes of a field say.
fn add_value(shape: &Shape, bytes: &[u8], out: &mut Vec<u8>) -> Result<(), AllocError>
    requires { IsTrue (fits (shown_of shape.now) (length bytes.now)) }
    ensures { OnOk result (out.new.items ≡ out.old.items ++ value_text (shown_of shape.now) bytes.now) }
{
    match *shape {
        Shape::Decimal => add_decimal(number_of(bytes), out),
        Shape::Hexadecimal => {
            out.extend_from_slice(b"0x")?;
            add_high_first(bytes, out)
        }
        Shape::Guid => add_guid(bytes, out),
        Shape::Text => add_text(bytes, out),
        Shape::OneOf(names) => add_named(names, number_of(bytes), out),
        Shape::Flags(names) => {
            let number = number_of(bytes);
            add_decimal(number, out)?;
            add_flags(names, number, out)
        }
        Shape::Bits { low, count, names } => {
            add_named(names, bits_of(number_of(bytes), low, count), out)
        }
        Shape::Stamp => add_stamp(bytes, out),
        Shape::Seconds => add_seconds(number_of(bytes), out),
        Shape::Register => add_register(bytes, out),
        Shape::Digits | Shape::Bytes => add_digits(bytes, out),
        Shape::Lines => add_lines(bytes, out),
    }
}

#[tactic(auto, using(crate::proofs::NumberLemmas::whole_part))]
pub(crate) fn add_guid(bytes: &[u8], out: &mut Vec<u8>) -> Result<(), AllocError>
    requires { length bytes.now ≡ 16 }
    ensures { OnOk result (out.new.items ≡ out.old.items ++ guid_text bytes.now) }
{
    let mut text = [0; 36];
    guid_at(bytes, 0).text(&mut text);
    out.extend_from_slice(&text)
}

fn add_seconds(seconds: u64, out: &mut Vec<u8>) -> Result<(), AllocError>
    ensures { OnOk result (out.new.items ≡ out.old.items ++ decimal seconds ++ date_in_brackets seconds) }
{
    add_decimal(seconds, out)?;
    if seconds < YEAR_10000 {
        out.extend_from_slice(b" (")?;
        add_date(seconds, out)?;
        out.push(b')')?;
    }
    Ok(())
}
