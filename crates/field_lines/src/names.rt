// Names of numbers and of their bits.
ghost use Rattle.std.specs.Prelude.{◌≡◌, ◌++◌, map, option_map, OnOk, false};
ghost use Rattle.field_lines.specs.Names.{name_in, named, is_flag, flag_words, named_object, flag_list, flags_object};
ghost use Rattle.field_lines.specs.Texts.{quoted};
ghost use Rattle.field_lines.specs.Code.{name_of};

use crate::digits::add_decimal;
use crate::field::Name;
use crate::number::has_bit;
use std::alloc::AllocError;

/// The name of a number in a list; none where it has none there.
pub(crate) fn name_in(mut names: &[Name], number: u64) -> Option<&'static str>
    ensures { option_map (λ name. name.now) result ≡ name_in (map name_of names.entry.now) number }
{
    while let [first, rest @ ..] = names {
        if first.number == number {
            return Some(first.name);
        }
        names = rest;
    }
    None
}

/// Appends a number, and its name where it has one.
pub(crate) fn add_named(names: &[Name], number: u64, out: &mut Vec<u8>) -> Result<(), AllocError>
    ensures { OnOk result (out.new.items ≡ out.old.items ++ named (map name_of names.now) number) }
{
    add_decimal(number, out)?;
    if let Some(name) = name_in(names, number) {
        out.extend_from_slice(b" (")?;
        out.extend_from_slice(name.as_bytes())?;
        out.push(b')')?;
    }
    Ok(())
}

fn is_flag(number: u64, bit: u64) -> bool
    ensures { result ≡ is_flag number bit }
{
    bit < 64 && has_bit(number, bit as u8)
}

/// Appends the names of the bits of a number that are set, each behind a space.
pub(crate) fn add_flags(
    mut names: &[Name],
    number: u64,
    out: &mut Vec<u8>,
) -> Result<(), AllocError>
    ensures { OnOk result (out.new.items ≡ out.old.items ++ flag_words (map name_of names.entry.now) number) }
{
    while let [first, rest @ ..] = names {
        if is_flag(number, first.number) {
            out.push(b' ')?;
            out.extend_from_slice(first.name.as_bytes())?;
        }
        names = rest;
    }
    Ok(())
}

/// Appends a number and its name as a JSON object; the number alone where the standard names none.
pub(crate) fn add_named_object(
    names: &[Name],
    number: u64,
    out: &mut Vec<u8>,
) -> Result<(), AllocError>
    ensures { OnOk result (out.new.items ≡ out.old.items ++ named_object (map name_of names.now) number) }
{
    let [_, ..] = names else {
        return add_decimal(number, out);
    };
    out.extend_from_slice(b"{\"value\":")?;
    add_decimal(number, out)?;
    if let Some(name) = name_in(names, number) {
        out.extend_from_slice(b",\"name\":\"")?;
        out.extend_from_slice(name.as_bytes())?;
        out.push(b'"')?;
    }
    out.push(b'}')?;
    Ok(())
}

// Appends the names of the bits of a number that are set, with a comma before each but the first.
fn add_flag_list(mut names: &[Name], number: u64, out: &mut Vec<u8>) -> Result<(), AllocError>
    ensures { OnOk result (out.new.items ≡ out.old.items ++ flag_list false (map name_of names.entry.now) number) }
{
    let mut more = false;
    while let [first, rest @ ..] = names {
        if is_flag(number, first.number) {
            if more {
                out.push(b',')?;
            }
            add_quoted(first.name, out)?;
            more = true;
        }
        names = rest;
    }
    Ok(())
}

/// Appends a number and the names of its bits that are set as a JSON object.
pub(crate) fn add_flags_object(
    names: &[Name],
    number: u64,
    out: &mut Vec<u8>,
) -> Result<(), AllocError>
    ensures { OnOk result (out.new.items ≡ out.old.items ++ flags_object (map name_of names.now) number) }
{
    out.extend_from_slice(b"{\"value\":")?;
    add_decimal(number, out)?;
    out.extend_from_slice(b",\"names\":[")?;
    add_flag_list(names, number, out)?;
    out.extend_from_slice(b"]}")
}

fn add_quoted(name: &str, out: &mut Vec<u8>) -> Result<(), AllocError>
    ensures { OnOk result (out.new.items ≡ out.old.items ++ quoted name.now) }
{
    out.push(b'"')?;
    out.extend_from_slice(name.as_bytes())?;
    out.push(b'"')?;
    Ok(())
}
