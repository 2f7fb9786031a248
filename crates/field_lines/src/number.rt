// Numbers of at most 8 bytes, and their bits.
ghost use Rattle.std.specs.Prelude.{◌≡◌, ◌≤◌, ◌<◌, ◌+◌, ◌*◌, length};
ghost use Rattle.base_model.specs.Bytes.{little};
ghost use Rattle.field_lines.specs.Numbers.{has_bit, bits_of, number_in};

use apei_bytes::{bytes_at, get_u64};

/// The number that bytes stand for.
#[tactic(auto, using(crate::proofs::NumberLemmas::whole_number))]
pub(crate) fn number_of(bytes: &[u8]) -> u64
    requires { length bytes.now ≤ 8 }
    ensures { result ≡ little bytes.now }
{
    match *bytes {
        [a] => u64::from(a),
        [a, b] => two_bytes(a, b),
        [a, b, c, d] => two_bytes(a, b) + 65_536 * two_bytes(c, d),
        [_, _, _, _, _, _, _, _] => get_u64(bytes, 0),
        _ => padded_number(bytes),
    }
}

fn two_bytes(low: u8, high: u8) -> u64
    ensures { result ≡ low + 256 * high }
{
    u64::from(low) + 256 * u64::from(high)
}

fn padded_number(bytes: &[u8]) -> u64
    requires { length bytes.now ≤ 8 }
    ensures { result ≡ little bytes.now }
{
    let mut padded = [0; 8];
    padded[..bytes.len()].copy_from_slice(bytes);
    get_u64(&padded, 0)
}

/// The number at a place of a body; none where it isn't all within.
pub(crate) fn number_in(body: &[u8], at: u16, width: u16) -> Option<u64>
    requires { width ≤ 8 }
    ensures { result ≡ number_in body.now at width }
{
    let at = at as usize;
    let width = width as usize;
    if body.len() < at + width {
        return None;
    }
    Some(number_of(bytes_at(body, at, width)))
}

/// Whether a bit of a number is set.
pub(crate) fn has_bit(number: u64, bit: u8) -> bool
    ensures { result ≡ has_bit number bit }
{
    bit < 64 && number >> bit & 1 == 1
}

/// Some bits of a number, as a number.
pub(crate) fn bits_of(number: u64, low: u8, count: u8) -> u64
    requires low { low < 64 }
    requires count { count < 64 }
    ensures { result ≡ bits_of number low count }
{
    (number >> low) % (1 << count)
}
