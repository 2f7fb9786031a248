// What may follow a keyword.
ghost use Rattle.std.specs.Prelude.{◌≡◌, ℕ, ◌+◌, ◌*◌, ◌<◌, ◌≤◌, ◌↔◌, ◌++◌, ◌∷◌, length, decimal, All, IsTrue, MatchOption, MatchResult, []};
ghost use Rattle.std.specs.Char.{is_ascii_hexdigit};
ghost use Rattle.script_lines.specs.Columns.{Breaks};
ghost use Rattle.script_lines.specs.Parts.{IsPairs, IsNumber, AreTwoNumbers, IsLongestNumber};

/// Nothing.
pub fn end(text: &[u8]) -> Result<(), usize>
    ensures { MatchResult result (λ _. text.now ≡ []) (λ reach. Breaks (λ text. text ≡ []) text.now reach) }
{
    if text.is_empty() { Ok(()) } else { Err(0) }
}

/// One or more pairs of hexadecimal digits of either case.
pub fn pairs(text: &[u8]) -> Result<(), usize>
    ensures { MatchResult result (λ _. IsPairs text.now) (λ reach. Breaks IsPairs text.now reach) }
{
    if let Some(reach) = first_other(text) {
        return Err(reach);
    }
    if text.is_empty() || text.len() % 2 == 1 {
        return Err(text.len());
    }
    Ok(())
}

// Where the first byte stands that is no hexadecimal digit. A text of digits alone is read without a branch for each.
fn first_other(text: &[u8]) -> Option<usize>
    ensures { MatchOption result (All (λ c. IsTrue (is_ascii_hexdigit c)) text.now) (Breaks IsPairs text.now) }
{
    if are_digits(text) {
        return None;
    }
    for (i, byte) in text.iter().enumerate() {
        if !byte.is_ascii_hexdigit() {
            return Some(i);
        }
    }
    None
}

fn are_digits(text: &[u8]) -> bool
    ensures { IsTrue result → All (λ c. IsTrue (is_ascii_hexdigit c)) text.now }
{
    let mut all = true;
    for byte in text {
        all &= is_digit(*byte);
    }
    all
}

// Whether a byte is a hexadecimal digit, without a branch and in the byte's own width.
fn is_digit(byte: u8) -> bool
    ensures { result ≡ is_ascii_hexdigit byte }
{
    (b'0' <= byte) & (byte <= b'9')
        | (b'A' <= byte) & (byte <= b'F')
        | (b'a' <= byte) & (byte <= b'f')
}

/// A decimal number from `least` to `most`, without a zero before other digits.
pub fn number(text: &[u8], least: u64, most: u64) -> Result<u64, usize>
    requires least { least ≤ 1 }
    requires most { 1 ≤ most }
    ensures { MatchResult result
        (λ n. (least ≤ n) × (n ≤ most) × (text.now ≡ decimal n))
        (λ reach. Breaks (IsNumber least most) text.now reach) }
{
    let digits = longest_number(text, least, most);
    if digits.len == 0 || digits.len < text.len() {
        return Err(digits.len);
    }
    Ok(digits.value)
}

/// A number up to `first`, one space, and a number from `least` to `most`.
pub fn two_numbers(text: &[u8], first: u64, least: u64, most: u64) -> Result<(u64, u64), usize>
    requires least { least ≤ 1 }
    requires most { 1 ≤ most }
    ensures { MatchResult result (λ both. (both.0 ≤ first) × (least ≤ both.1) × (both.1 ≤ most)
        × (text.now ≡ decimal both.0 ++ 32 ∷ decimal both.1))
        (λ reach. Breaks (AreTwoNumbers first least most) text.now reach) }
{
    let digits = longest_number(text, 0, first);
    if digits.len == 0 || digits.len == text.len() || text[digits.len] != b' ' {
        return Err(digits.len);
    }
    match number(&text[digits.len + 1..], least, most) {
        Ok(second) => Ok((digits.value, second)),
        Err(reach) => Err(digits.len + 1 + reach),
    }
}

// A number at the front of a text, and how many bytes it takes.
#[derive(Clone, Copy)]
struct LeadingNumber {
    value: u64,
    len: usize,
}

// The longest beginning that is a number from `least` to `most`.
fn longest_number(text: &[u8], least: u64, most: u64) -> LeadingNumber
    requires { least ≤ 1 }
    ensures { IsLongestNumber least most text.now result.value result.len }
{
    let mut value = 0;
    for (i, byte) in text.iter().enumerate() {
        if i > 0 && value == 0 {
            return LeadingNumber { value, len: i };
        }
        match next_number(value, *byte, least, most) {
            Some(next) => value = next,
            None => return LeadingNumber { value, len: i },
        }
    }
    LeadingNumber {
        value,
        len: text.len(),
    }
}

// The number with one digit more, where that is from `least` to `most`.
fn next_number(value: u64, byte: u8, least: u64, most: u64) -> Option<u64>
    ensures { MatchOption result
        ((d : ℕ) → d < 10 → byte ≡ 48 + d → least ≤ value * 10 + d → value * 10 + d ≤ most → ⊥)
        (λ next. (d : ℕ) × (d < 10) × (byte ≡ 48 + d) × (next ≡ value * 10 + d) × (least ≤ next) × (next ≤ most)) }
{
    if !byte.is_ascii_digit() {
        return None;
    }
    let digit = (byte - b'0') as u64;
    if digit > most || value > (most - digit) / 10 {
        return None;
    }
    let next = value * 10 + digit;
    if next < least {
        return None;
    }
    Some(next)
}
