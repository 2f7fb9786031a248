// Bytes that a line gives in hexadecimal digits.
ghost use Rattle.std.specs.Prelude.{◌≡◌, ◌*◌, ◌<◌, ◌≤◌, true, Some, Ok, length, take, drop, vec_len};
ghost use Rattle.script_lines.specs.declared.lengths.TheConstants.{LONGEST_LINE, LONGEST_BYTES};
ghost use Rattle.script_lines.specs.Parts.{IsPairs};
ghost use Rattle.hex.specs.Hex.{decode_of, hex_digit_value, is_hex_digit};

use hex::FromHex;

/// The first bytes of a buffer become those of pairs of hexadecimal digits; their number is answered.
pub fn decode(hex: &[u8], out: &mut [u8]) -> usize
    requires pairs { IsPairs hex.now }
    requires room { length hex.now ≤ 2 * length out.old }
    ensures bytes { decode_of hex.now ≡ Ok (take result out.new) }
    ensures within { result ≤ length out.new }
    ensures rest { drop result out.new ≡ drop result out.old }
    ensures size { length out.new ≡ length out.old }
{
    let count = hex.len() / 2;
    for at in 0..count {
        out[at] = value_of(hex[2 * at]) * 16 + value_of(hex[2 * at + 1]);
    }
    count
}

/// The first bytes of a line's buffer become those of its hexadecimal digits; their number is answered.
pub fn decode_line(hex: &[u8], bytes: &mut Vec<u8>) -> usize
    requires pairs { IsPairs hex.now }
    requires fits { length hex.now ≤ LONGEST_LINE }
    requires room { vec_len bytes.old ≡ LONGEST_BYTES }
    ensures bytes { decode_of hex.now ≡ Ok (take result bytes.new.items) }
    ensures rest { drop result bytes.new.items ≡ drop result bytes.old.items }
    ensures size { vec_len bytes.new ≡ LONGEST_BYTES }
    ensures within { result ≤ LONGEST_BYTES }
{
    decode(hex, bytes)
}

// The value of a digit: that of the byte of a zero and this digit. Since it is one, 0 is never answered for another; with it no digit has
// a way out of the loop above, and many are read at once.
#[inline(always)]
fn value_of(digit: u8) -> u8
    requires { is_hex_digit digit ≡ true }
    ensures value { hex_digit_value digit ≡ Some result }
    ensures small { result < 16 }
{
    match <[u8; 1] as FromHex>::from_hex([b'0', digit]) {
        Ok(bytes) => bytes[0],
        Err(_) => 0,
    }
}
