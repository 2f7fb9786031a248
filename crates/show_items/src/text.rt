// Texts, and texts in JSON.
ghost use Rattle.std.specs.Prelude.{◌≡◌, ◌<◌, ◌/◌, ◌%◌, [], ◌∷◌, ◌++◌, codes, OnOk};
ghost use Rattle.apei_bytes.specs.Guid.{digit, guid_text};
ghost use Rattle.show_items.specs.Texts.{all_escaped, escaped, number_json, quoted};

use apei_bytes::Guid;
use field_lines::add_decimal;
use std::alloc::AllocError;

/// Adds a text.
pub(crate) fn add(out: &mut Vec<u8>, text: &str) -> Result<(), AllocError>
    ensures { OnOk result (out.new.items ≡ out.old.items ++ text.now) }
{
    out.extend_from_slice(text.as_bytes())
}

/// Adds the text of a GUID.
pub(crate) fn add_guid(out: &mut Vec<u8>, guid: &Guid) -> Result<(), AllocError>
    ensures { OnOk result (out.new.items ≡ out.old.items ++ guid_text guid.now) }
{
    let mut text = [0; 36];
    guid.text(&mut text);
    out.extend_from_slice(&text)
}

/// Adds a number, or `null` where there is none.
pub(crate) fn add_number(out: &mut Vec<u8>, number: Option<u64>) -> Result<(), AllocError>
    ensures { OnOk result (out.new.items ≡ out.old.items ++ number_json number) }
{
    match number {
        Some(number) => add_decimal(number, out),
        None => add(out, "null"),
    }
}

/// Adds a text as a JSON string.
pub(crate) fn add_quoted(out: &mut Vec<u8>, text: &str) -> Result<(), AllocError>
    ensures { OnOk result (out.new.items ≡ out.old.items ++ quoted text.now) }
{
    add(out, "\"")?;
    add_escaped(out, text.as_bytes())?;
    add(out, "\"")
}

fn add_escaped(out: &mut Vec<u8>, mut text: &[u8]) -> Result<(), AllocError>
    ensures { OnOk result (out.new.items ≡ out.old.items ++ all_escaped text.entry.now) }
{
    while let [byte, rest @ ..] = text {
        add_byte(out, *byte)?;
        text = rest;
    }
    Ok(())
}

// Adds a byte as it stands in a JSON string.
fn add_byte(out: &mut Vec<u8>, byte: u8) -> Result<(), AllocError>
    ensures { OnOk result (out.new.items ≡ out.old.items ++ escaped byte) }
{
    match byte {
        b'"' => out.extend_from_slice(b"\\\""),
        b'\\' => out.extend_from_slice(b"\\\\"),
        0..=31 => add_number_of(out, byte),
        other => out.extend_from_slice(&[other]),
    }
}

/// Adds a byte by its number.
pub(crate) fn add_number_of(out: &mut Vec<u8>, byte: u8) -> Result<(), AllocError>
    ensures { OnOk result (out.new.items ≡ out.old.items ++ codes "\\u00" ++ digit (byte / 16) ∷ digit (byte % 16) ∷ []) }
{
    out.extend_from_slice(b"\\u00")?;
    out.extend_from_slice(&[digit(byte / 16), digit(byte % 16)])
}

// A digit of sixteen.
fn digit(value: u8) -> u8
    requires { value < 16 }
    ensures { result ≡ digit value }
{
    if value < 10 {
        b'0' + value
    } else {
        b'a' + (value - 10)
    }
}
