// Digits and texts.
ghost use Rattle.std.specs.Prelude.{◌≡◌, [], ◌∷◌, ◌++◌, ◌<◌, ◌/◌, ◌%◌, length, OnOk, codes, decimal};
ghost use Rattle.apei_bytes.specs.Guid.{digit, digits};
ghost use Rattle.field_lines.specs.Texts.{high_first, text_of, shown_byte, lines_text};

use itoa::{Buffer, write_digits};
use std::alloc::AllocError;

/// Appends the decimal digits of a number.
#[tactic(auto, using(std::proofs::lemmas::Fmt::decimal_digit))]
pub fn add_decimal(number: u64, out: &mut Vec<u8>) -> Result<(), AllocError>
    ensures { OnOk result (out.new.items ≡ out.old.items ++ decimal number) }
{
    if number < 10 {
        return out.extend_from_slice(&[b'0' + number as u8]);
    }
    out.extend_from_slice(Buffer::new().format(number).as_bytes())
}

/// Appends the decimal digits of a number behind a colon, and the end of a line.
#[tactic(auto, using(std::proofs::lemmas::Fmt::decimal_digit))]
pub(crate) fn end_with_decimal(number: u64, out: &mut Vec<u8>) -> Result<(), AllocError>
    ensures { OnOk result (out.new.items ≡ out.old.items ++ codes ": " ++ decimal number ++ codes "\n") }
{
    if number < 10 {
        out.extend_from_slice(&[b':', b' ', b'0' + number as u8, b'\n'])?;
        return Ok(());
    }
    out.extend_from_slice(b": ")?;
    end_with_digits(number, out)
}

/// Appends the decimal digits of a number behind the end of a member's name.
#[tactic(auto, using(std::proofs::lemmas::Fmt::decimal_digit))]
pub(crate) fn decimal_member(number: u64, out: &mut Vec<u8>) -> Result<(), AllocError>
    ensures { OnOk result (out.new.items ≡ out.old.items ++ codes "\":" ++ decimal number) }
{
    if number < 10 {
        out.extend_from_slice(&[b'"', b':', b'0' + number as u8])?;
        return Ok(());
    }
    out.extend_from_slice(b"\":")?;
    out.extend_from_slice(Buffer::new().format(number).as_bytes())
}

#[tactic(auto, using(crate::proofs::NumberLemmas::few_digits))]
fn end_with_digits(number: u64, out: &mut Vec<u8>) -> Result<(), AllocError>
    ensures { OnOk result (out.new.items ≡ out.old.items ++ decimal number ++ codes "\n") }
{
    let mut text = [b'\n'; 21];
    let start = write_digits(number, &mut text, 20);
    out.extend_from_slice(&text[start..])
}

pub(crate) fn digit(value: u8) -> u8
    requires { value < 16 }
    ensures { result ≡ digit value }
{
    if value < 10 {
        b'0' + value
    } else {
        b'a' + value - 10
    }
}

pub(crate) fn high(byte: u8) -> u8
    ensures { result ≡ digit (byte / 16) }
{
    digit(byte / 16)
}

pub(crate) fn low(byte: u8) -> u8
    ensures { result ≡ digit (byte % 16) }
{
    digit(byte % 16)
}

#[inline(always)]
fn add_four(a: u8, b: u8, c: u8, d: u8, out: &mut Vec<u8>) -> Result<(), AllocError>
    ensures { OnOk result (out.new.items ≡ out.old.items ++ high_first (a ∷ b ∷ c ∷ d ∷ [])) }
{
    out.extend_from_slice(&[
        high(d),
        low(d),
        high(c),
        low(c),
        high(b),
        low(b),
        high(a),
        low(a),
    ])
}

#[inline(always)]
fn add_four_bytes(bytes: &[u8], out: &mut Vec<u8>) -> Result<(), AllocError>
    requires { length bytes.now ≡ 4 }
    ensures { OnOk result (out.new.items ≡ out.old.items ++ high_first bytes.now) }
{
    match *bytes {
        [a, b, c, d] => add_four(a, b, c, d, out),
        _ => Ok(()),
    }
}

#[inline(always)]
fn end_with_four(a: u8, b: u8, c: u8, d: u8, end: u8, out: &mut Vec<u8>) -> Result<(), AllocError>
    ensures { OnOk result (out.new.items ≡ out.old.items ++ high_first (a ∷ b ∷ c ∷ d ∷ []) ++ end ∷ []) }
{
    out.extend_from_slice(&[
        high(d),
        low(d),
        high(c),
        low(c),
        high(b),
        low(b),
        high(a),
        low(a),
        end,
    ])
}

/// Appends two digits of sixteen for each byte, those of the last byte first.
pub fn add_high_first(bytes: &[u8], out: &mut Vec<u8>) -> Result<(), AllocError>
    ensures { OnOk result (out.new.items ≡ out.old.items ++ high_first bytes.now) }
{
    match *bytes {
        [] => Ok(()),
        [a, b] => out.extend_from_slice(&[high(b), low(b), high(a), low(a)]),
        [a, b, c, d, ref rest @ ..] => {
            if rest.len() == 4 {
                add_four_bytes(rest, out)?;
                return add_four(a, b, c, d, out);
            }
            add_high_first(rest, out)?;
            add_four(a, b, c, d, out)
        }
        [first, ref rest @ ..] => {
            add_high_first(rest, out)?;
            out.extend_from_slice(&[high(first), low(first)])
        }
    }
}

/// Appends two digits of sixteen for each byte, those of the last byte first, behind a colon, and the end of a line.
pub(crate) fn end_with_high_first(bytes: &[u8], out: &mut Vec<u8>) -> Result<(), AllocError>
    ensures { OnOk result (out.new.items ≡ out.old.items ++ codes ": 0x" ++ high_first bytes.now ++ codes "\n") }
{
    out.extend_from_slice(b": 0x")?;
    end_with_digits_of(bytes, b'\n', out)
}

/// The same of a member of a JSON object, behind the end of its name.
pub(crate) fn quote_high_first(bytes: &[u8], out: &mut Vec<u8>) -> Result<(), AllocError>
    ensures { OnOk result (out.new.items ≡ out.old.items ++ codes "\":\"0x" ++ high_first bytes.now ++ codes "\"") }
{
    out.extend_from_slice(b"\":\"0x")?;
    end_with_digits_of(bytes, b'"', out)
}

fn end_with_digits_of(bytes: &[u8], end: u8, out: &mut Vec<u8>) -> Result<(), AllocError>
    ensures { OnOk result (out.new.items ≡ out.old.items ++ high_first bytes.now ++ end ∷ []) }
{
    if let [a, b, c, d, ref rest @ ..] = *bytes {
        if rest.len() == 4 {
            add_four_bytes(rest, out)?;
            return end_with_four(a, b, c, d, end, out);
        }
    }
    add_high_first(bytes, out)?;
    out.extend_from_slice(&[end])
}

/// Appends two digits of sixteen for each byte, those of the first byte first.
pub fn add_digits(mut bytes: &[u8], out: &mut Vec<u8>) -> Result<(), AllocError>
    ensures { OnOk result (out.new.items ≡ out.old.items ++ digits bytes.entry.now) }
{
    while let [byte, rest @ ..] = bytes {
        out.extend_from_slice(&[high(*byte), low(*byte)])?;
        bytes = rest;
    }
    Ok(())
}

/// Appends the text before the first zero, with dots for what can't be printed.
pub(crate) fn add_text(mut bytes: &[u8], out: &mut Vec<u8>) -> Result<(), AllocError>
    ensures { OnOk result (out.new.items ≡ out.old.items ++ text_of bytes.entry.now) }
{
    while let [byte, rest @ ..] = bytes {
        if *byte == 0 {
            break;
        }
        out.push(shown_byte(*byte))?;
        bytes = rest;
    }
    Ok(())
}

fn shown_byte(byte: u8) -> u8
    ensures { result ≡ shown_byte byte }
{
    if byte < 32 || byte > 126 { b'.' } else { byte }
}

/// Appends lines of text, each behind the first on a line of its own.
pub(crate) fn add_lines(mut bytes: &[u8], out: &mut Vec<u8>) -> Result<(), AllocError>
    ensures { OnOk result (out.new.items ≡ out.old.items ++ lines_text bytes.entry.now) }
{
    while let [byte, rest @ ..] = bytes {
        if *byte != b'\n' {
            out.push(shown_byte(*byte))?;
        } else if !rest.is_empty() {
            out.extend_from_slice(b"\n    ")?;
        }
        bytes = rest;
    }
    Ok(())
}
