// Digits of sixteen.
ghost use Rattle.std.specs.Prelude.{◌≡◌, ◌++◌, ◌<◌, ◌/◌, ◌%◌, [], ◌∷◌, OnOk, string_bytes};
ghost use Rattle.apei_bytes.specs.Guid.{digit, digits};
ghost use Rattle.apei_look.specs.Frames.{bytes_text};

use std::alloc::AllocError;

/// The bytes of a number, from the low one on.
#[tactic(auto, unfolding(crate::specs::Frames::bytes_text))]
pub fn add_bytes(out: &mut String, number: u64) -> Result<(), AllocError>
    ensures { OnOk result (string_bytes out.new ≡ string_bytes out.old ++ bytes_text number) }
{
    let bytes = number.to_le_bytes();
    add_all(out, &bytes)
}

fn add_all(out: &mut String, mut bytes: &[u8]) -> Result<(), AllocError>
    ensures { OnOk result (string_bytes out.new ≡ string_bytes out.old ++ digits bytes.entry.now) }
{
    while let [byte, rest @ ..] = bytes {
        add_digits(out, *byte)?;
        bytes = rest;
    }
    Ok(())
}

/// The two digits of a byte.
pub fn add_digits(out: &mut String, byte: u8) -> Result<(), AllocError>
    ensures { OnOk result (string_bytes out.new ≡ string_bytes out.old ++ digits (byte ∷ [])) }
{
    out.push(digit(byte / 16))?;
    out.push(digit(byte % 16))
}

fn digit(value: u8) -> char
    requires { value < 16 }
    ensures digit { result ≡ digit value }
    ensures ascii { result < 128 }
{
    if value < 10 {
        char::from(b'0' + value)
    } else {
        char::from(b'a' + value - 10)
    }
}
