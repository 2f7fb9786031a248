// What the rows of a layout tell by their names.
ghost use Rattle.std.specs.Prelude.{◌≡◌, ◌≤◌, ◌+◌, length, map, option_map, IfSome, Some};
ghost use Rattle.field_lines.specs.Code.{field_of, name_of, shown_of, structure_of};
ghost use Rattle.field_lines.specs.Names.{name_in as name_of_number};
ghost use Rattle.field_lines.specs.Told.{names_told, number_by, number_shown, number_told, row_in, row_of, text_by, text_told};

use crate::field::{Field, Name, Shape};
use crate::layout::Layout;
use crate::names::name_in;
use crate::number::{bits_of, number_in};
use crate::walk::{is_shown, validation};
use apei_bytes::bytes_at;

/// A number, and the names that its row has for numbers or for bits.
#[derive(Clone, Copy)]
pub struct NamedNumber {
    pub number: u64,
    pub names: &'static [Name],
}

impl NamedNumber {
    /// The name of the number; none where its row has none for it.
    pub fn name(&self) -> Option<&'static str>
        ensures { option_map (λ name. name.now) result ≡ name_of_number (map name_of self.now.names.now) self.now.number }
    {
        name_in(self.names, self.number)
    }
}

/// The number that the row of a name shows of a body; of several rows, the first that is shown. None where none is, and where it shows no number.
pub fn number_told(layout: &Layout, name: &str, body: &[u8]) -> Option<NamedNumber>
    ensures { option_map names_told result ≡ number_told (structure_of layout.now) name.now body.now }
{
    match row_of(layout, name, body) {
        Some(row) => number_by(row, body),
        None => None,
    }
}

/// The bytes of the text that the row of a name shows of a body, with what stands behind its first zero. There are none where no such row is shown, and
/// where it shows no text.
pub fn text_told<'a>(layout: &Layout, name: &str, body: &'a [u8]) -> &'a [u8]
    ensures { result.now ≡ text_told (structure_of layout.now) name.now body.now }
{
    match row_of(layout, name, body) {
        Some(row) => text_by(row, body),
        None => &[],
    }
}

fn row_of(layout: &Layout, name: &str, body: &[u8]) -> Option<&'static Field>
    ensures row { option_map (λ row. field_of row.now) result ≡ row_of (structure_of layout.now) name.now body.now }
    ensures within { IfSome result (λ row. row.now.at + row.now.width ≤ length body.now) }
{
    let valid = validation(body, layout.valid_at);
    row_in(layout.fields, name, valid, body.len())
}

fn row_in(mut rows: &'static [Field], name: &str, valid: u64, len: usize) -> Option<&'static Field>
    ensures row { option_map (λ row. field_of row.now) result ≡ row_in valid len name.now (map field_of rows.entry.now) }
    ensures within { IfSome result (λ row. row.now.at + row.now.width ≤ len) }
{
    while let [row, rest @ ..] = rows {
        if row.name == name && is_shown(row, valid, len) {
            return Some(row);
        }
        rows = rest;
    }
    None
}

fn number_by(row: &Field, body: &[u8]) -> Option<NamedNumber>
    ensures { option_map names_told result ≡ number_by (Some (field_of row.now)) body.now }
{
    if row.width > 8 {
        return None;
    }
    match number_in(body, row.at, row.width) {
        Some(number) => number_shown(&row.shape, number),
        None => None,
    }
}

fn number_shown(shape: &Shape, number: u64) -> Option<NamedNumber>
    ensures { option_map names_told result ≡ number_shown (shown_of shape.now) number }
{
    match *shape {
        Shape::Decimal | Shape::Hexadecimal | Shape::Seconds => {
            Some(NamedNumber { number, names: &[] })
        }
        Shape::OneOf(names) | Shape::Flags(names) => Some(NamedNumber { number, names }),
        Shape::Bits { low, count, names } if low < 64 && count < 64 => Some(NamedNumber {
            number: bits_of(number, low, count),
            names,
        }),
        _ => None,
    }
}

fn text_by<'a>(row: &Field, body: &'a [u8]) -> &'a [u8]
    requires { row.now.at + row.now.width ≤ length body.now }
    ensures { result.now ≡ text_by (Some (field_of row.now)) body.now }
{
    match row.shape {
        Shape::Text => bytes_at(body, row.at as usize, row.width as usize),
        _ => &[],
    }
}
