// Script lines of many digits.
use script_text::ScriptLine;

const DIGITS: usize = 16_384;

// A `write` line of 16,384 digits.
fn line() -> [u8; 6 + DIGITS] {
    let mut text = [b'4'; 6 + DIGITS];
    text[..6].copy_from_slice(b"write ");
    text
}

/// Parses such a line so many times. It answers how many digits they had.
pub fn parse_lines(times: u64) -> Option<u64> {
    let mut text = line();
    let mut digits = 0u64;
    for k in 0..times {
        text[6] = b'0' + (k % 10) as u8;
        match ScriptLine::parse(&text) {
            Ok(ScriptLine::Write { hex }) => digits = digits.wrapping_add(hex.len() as u64),
            _ => return None,
        }
    }
    Some(digits)
}

/// Reads such a line twice so many times: its bytes are added. It answers the sum.
pub fn read_lines(times: u64) -> Option<u64> {
    let mut text = line();
    let mut sum = 0u64;
    for k in 0..times {
        text[6] = b'0' + (k % 10) as u8;
        sum = sum.wrapping_add(added(&text));
        text[7] = b'0' + (k % 10) as u8;
        sum = sum.wrapping_add(added(&text));
    }
    Some(sum)
}

fn added(text: &[u8]) -> u64 {
    let mut sum = 0u64;
    for byte in text {
        sum = sum.wrapping_add(u64::from(*byte));
    }
    sum
}
