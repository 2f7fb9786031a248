// Registers: generic addresses (ACPI 6.4, 5.2.3.2).
ghost use Rattle.std.specs.Prelude.{◌≡◌, ◌≤◌, ◌++◌, length, option_map, OnOk};
ghost use Rattle.field_lines.specs.Values.{space_name, or_number, unless_zero, register_space, register_access, register_text, register_object};

use crate::digits::{add_decimal, add_high_first};
use crate::field::Name;
use crate::names::name_in;
use std::alloc::AllocError;

macro_rules! space {
    ($number:expr, $name:expr) => {
        Name {
            number: $number,
            name: $name,
        }
    };
}

const ADDRESS_SPACES: [Name; 12] = [
    space!(0, "memory"),
    space!(1, "I/O"),
    space!(2, "PCI configuration"),
    space!(3, "embedded controller"),
    space!(4, "SMBus"),
    space!(5, "CMOS"),
    space!(6, "PCI BAR target"),
    space!(7, "IPMI"),
    space!(8, "general purpose I/O"),
    space!(9, "generic serial bus"),
    space!(10, "platform communications channel"),
    space!(127, "fixed hardware"),
];

fn add_space(space: u8, out: &mut Vec<u8>) -> Result<(), AllocError>
    ensures { OnOk result (out.new.items ≡ out.old.items ++ or_number (space_name space) space) }
{
    match space_name(space) {
        Some(name) => out.extend_from_slice(name.as_bytes()),
        None => {
            out.extend_from_slice(b"space ")?;
            add_decimal(space as u64, out)
        }
    }
}

#[tactic(auto, unfolding(crate::specs::Values::space_name))]
fn space_name(space: u8) -> Option<&'static str>
    ensures { option_map (λ name. name.now) result ≡ space_name space }
{
    name_in(&ADDRESS_SPACES, space as u64)
}

fn add_unless_zero(words: &[u8], number: u8, out: &mut Vec<u8>) -> Result<(), AllocError>
    ensures { OnOk result (out.new.items ≡ out.old.items ++ unless_zero words.now number) }
{
    if number == 0 {
        return Ok(());
    }
    out.extend_from_slice(words)?;
    add_decimal(number as u64, out)
}

/// Appends what the bytes of a register say.
pub(crate) fn add_register(bytes: &[u8], out: &mut Vec<u8>) -> Result<(), AllocError>
    requires { 4 ≤ length bytes.now }
    ensures { OnOk result (out.new.items ≡ out.old.items ++ register_text bytes.now) }
{
    add_register_space(bytes, out)?;
    add_register_access(bytes, out)?;
    out.extend_from_slice(b" at 0x")?;
    add_high_first(&bytes[4..], out)
}

#[tactic(auto, unfolding(crate::specs::Values::register_space))]
fn add_register_space(bytes: &[u8], out: &mut Vec<u8>) -> Result<(), AllocError>
    requires { 4 ≤ length bytes.now }
    ensures { OnOk result (out.new.items ≡ out.old.items ++ register_space bytes.now) }
{
    add_space(bytes[0], out)?;
    out.push(b' ')?;
    add_decimal(bytes[1] as u64, out)?;
    out.extend_from_slice(b" bits")
}

#[tactic(auto, unfolding(crate::specs::Values::register_access))]
fn add_register_access(bytes: &[u8], out: &mut Vec<u8>) -> Result<(), AllocError>
    requires { 4 ≤ length bytes.now }
    ensures { OnOk result (out.new.items ≡ out.old.items ++ register_access bytes.now) }
{
    add_unless_zero(b" from bit ", bytes[2], out)?;
    add_unless_zero(b" access ", bytes[3], out)
}

/// Appends the fields of a register as a JSON object.
pub(crate) fn add_register_object(bytes: &[u8], out: &mut Vec<u8>) -> Result<(), AllocError>
    requires { 4 ≤ length bytes.now }
    ensures { OnOk result (out.new.items ≡ out.old.items ++ register_object bytes.now) }
{
    out.extend_from_slice(b"{\"space\":")?;
    add_decimal(bytes[0] as u64, out)?;
    out.extend_from_slice(b",\"width\":")?;
    add_decimal(bytes[1] as u64, out)?;
    out.extend_from_slice(b",\"offset\":")?;
    add_decimal(bytes[2] as u64, out)?;
    out.extend_from_slice(b",\"access\":")?;
    add_decimal(bytes[3] as u64, out)?;
    out.extend_from_slice(b",\"address\":\"0x")?;
    add_high_first(&bytes[4..], out)?;
    out.extend_from_slice(b"\"}")
}
