// Fields as lines of text.
ghost use Rattle.std.specs.Prelude.{◌≡◌, ◌≤◌, ◌<◌, ◌+◌, ◌*◌, ◌^◌, ◌++◌, length, replicate, OnOk, IsTrue, true};
ghost use Rattle.field_lines.specs.Fields.{is_sound, fits};
ghost use Rattle.field_lines.specs.Values.{field_bytes};
ghost use Rattle.field_lines.specs.Styles.{margin, place_text, plain_line, plain_heading};
ghost use Rattle.field_lines.specs.Code.{field_of, shown_of, heading_of};

use crate::digits::add_decimal;
use crate::field::{Field, Shape};
use crate::style::{Location, Mark, Style};
use crate::value::end_with_value;
use apei_bytes::bytes_at;
use std::alloc::AllocError;

/// A line for each field: `name: value`.
#[derive(Clone, Copy)]
pub struct Plain {
    /// How many spaces are before the lines of a body; those of a part have two more.
    pub indent: u8,
    /// Whether each line begins with the place of its field, as `[128] `.
    pub places: bool,
}

impl Plain {
    #[inline(always)]
    fn add_margin(&self, depth: u8, at: u64, out: &mut Vec<u8>) -> Result<(), AllocError>
        ensures { OnOk result (out.new.items ≡ out.old.items ++ margin self.now depth at) }
    {
        add_spaces(self.indent as usize + 2 * depth as usize, out)?;
        if self.places {
            add_place(at, out)
        } else {
            Ok(())
        }
    }
}

fn add_place(at: u64, out: &mut Vec<u8>) -> Result<(), AllocError>
    ensures { OnOk result (out.new.items ≡ out.old.items ++ place_text true at) }
{
    out.push(b'[')?;
    add_decimal(at, out)?;
    out.extend_from_slice(b"] ")
}

// Most lines begin with four spaces, which take one move.
#[inline(always)]
fn add_spaces(count: usize, out: &mut Vec<u8>) -> Result<(), AllocError>
    requires { count ≤ 768 }
    ensures { OnOk result (out.new.items ≡ out.old.items ++ replicate count 32) }
{
    if count == 4 {
        out.extend_from_slice(b"    ")
    } else {
        add_any_spaces(count, out)
    }
}

static SPACES: [u8; 768] = [b' '; 768];

fn add_any_spaces(count: usize, out: &mut Vec<u8>) -> Result<(), AllocError>
    requires { count ≤ 768 }
    ensures { OnOk result (out.new.items ≡ out.old.items ++ replicate count 32) }
{
    out.extend_from_slice(&SPACES[..count])?;
    Ok(())
}

impl Style for Plain {
    ghost text = { plain_line };

    ghost heading = { plain_heading };

    fn add(
        &self,
        location: Location,
        field: &Field,
        body: &[u8],
        out: &mut Vec<u8>,
    ) -> Result<(), AllocError> {
        self.add_margin(location.depth, location.base + field.at as u64, out)?;
        out.extend_from_slice(field.name.as_bytes())?;
        end_with_value(&field.shape, field_bytes(field, body), out)
    }

    fn mark(&self, location: Location, mark: &Mark, out: &mut Vec<u8>) -> Result<(), AllocError> {
        match *mark {
            Mark::Part { name, index } => {
                self.add_margin(location.depth, location.base, out)?;
                out.extend_from_slice(name.as_bytes())?;
                out.push(b' ')?;
                add_decimal(index, out)?;
                out.push(b'\n')?;
                Ok(())
            }
            Mark::Inner { name } => {
                self.add_margin(location.depth, location.base, out)?;
                out.extend_from_slice(name.as_bytes())?;
                out.push(b'\n')?;
                Ok(())
            }
            Mark::End | Mark::EndParts => Ok(()),
        }
    }
}

/// The bytes of a field.
pub(crate) fn field_bytes<'a>(field: &Field, body: &'a [u8]) -> &'a [u8]
    requires sound { IsTrue (is_sound (field_of field.now)) }
    requires within { field.now.at + field.now.width ≤ length body.now }
    ensures value { result.now ≡ field_bytes (field_of field.now) body.now }
    ensures fits { IsTrue (fits (shown_of field.now.shape) (length result.now)) }
{
    let at = field.at as usize;
    match field.shape {
        Shape::Bytes | Shape::Lines => &body[at..],
        _ => bytes_at(body, at, field.width as usize),
    }
}
