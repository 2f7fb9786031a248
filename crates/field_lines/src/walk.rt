// The fields of a body.
ghost use Rattle.std.specs.Prelude.{◌≡◌, ◌<◌, ◌+◌, ◌^◌, ◌++◌, length, map, OnOk, IsTrue};
ghost use Rattle.field_lines.specs.Numbers.{validation, is_valid};
ghost use Rattle.field_lines.specs.Fields.{are_sound, register_fields};
ghost use Rattle.field_lines.specs.Walks.{is_shown, fields_text, shows_any};
ghost use Rattle.field_lines.specs.Code.{field_of};

use crate::field::{Field, Shape};
use crate::number::{has_bit, number_of};
use crate::style::{Location, Style};
use std::alloc::AllocError;

/// Appends each field that is valid and lies within the body, in their order and as a style writes it. The validation bits stand at a place of the
/// body. Where there is no memory some fields may have been appended.
pub fn add_fields<S: Style>(
    style: &S,
    location: Location,
    valid_at: u16,
    mut fields: &[Field],
    body: &[u8],
    out: &mut Vec<u8>,
) -> Result<(), AllocError>
    requires sound { IsTrue (are_sound (map field_of fields.now)) }
    requires place { location.base + length body.now < 2 ^ 64 }
    ensures { OnOk result (out.new.items ≡ out.old.items ++ fields_text
        (S.text style.now location.depth location.base) valid_at (map field_of fields.entry.now) body.now) }
{
    let valid = validation(body, valid_at);
    while let [field, rest @ ..] = fields {
        if is_shown(field, valid, body.len()) {
            style.add(location, field, body, out)?;
        }
        fields = rest;
    }
    Ok(())
}

/// Appends each register that lies within the body, where they stand one behind another from a place on.
pub(crate) fn add_registers<S: Style>(
    style: &S,
    location: Location,
    width: u16,
    mut names: &[&'static str],
    body: &[u8],
    out: &mut Vec<u8>,
) -> Result<(), AllocError>
    requires sound { IsTrue (are_sound (register_fields width 0 (map (λ name. name.now) names.now))) }
    requires place { location.base + length body.now < 2 ^ 64 }
    ensures { OnOk result (out.new.items ≡ out.old.items ++ fields_text
        (S.text style.now location.depth location.base) 0
        (register_fields width 0 (map (λ name. name.now) names.entry.now)) body.now) }
{
    let mut at = 0;
    while let [name, rest @ ..] = names {
        let field = Field {
            at,
            width,
            bit: None,
            name: *name,
            shape: Shape::Hexadecimal,
        };
        if is_shown(&field, 0, body.len()) {
            style.add(location, &field, body, out)?;
        }
        at += width;
        names = rest;
    }
    Ok(())
}

/// The validation bits that stand at a place, or as many of them as are within the body.
#[tactic(auto, using(std::proofs::lemmas::List::drop_min))]
pub(crate) fn validation(body: &[u8], at: u16) -> u64
    ensures { result ≡ validation at body.now }
{
    let rest = &body[(at as usize).min(body.len())..];
    number_of(&rest[..rest.len().min(8)])
}

/// Whether a body has one of the fields to show. Its validation bits are its first bytes.
pub(crate) fn shows_any(fields: &[Field], body: &[u8]) -> bool
    ensures { result ≡ shows_any 0 (map field_of fields.now) body.now }
{
    let valid = validation(body, 0);
    fields
        .iter()
        .any(|field| is_shown(field, valid, body.len()))
}

/// Whether a body has one of the registers to show, which stand one behind another: the first of them, if any.
pub(crate) fn shows_register(width: u16, names: &[&'static str], body: &[u8]) -> bool
    ensures { result ≡ shows_any 0 (register_fields width 0 (map (λ name. name.now) names.now)) body.now }
{
    !names.is_empty() && width as usize <= body.len()
}

/// Whether a field is valid and lies within a body of so many bytes.
pub(crate) fn is_shown(field: &Field, valid: u64, len: usize) -> bool
    ensures { result ≡ is_shown valid len (field_of field.now) }
{
    if len < field.at as usize + field.width as usize {
        return false;
    }
    is_valid(field.bit, valid)
}

/// Whether the validation bits have this one, if it is one.
pub(crate) fn is_valid(bit: Option<u8>, valid: u64) -> bool
    ensures { result ≡ is_valid bit valid }
{
    match bit {
        None => true,
        Some(bit) => has_bit(valid, bit),
    }
}
