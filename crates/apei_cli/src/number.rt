// A number in decimal digits.
ghost use Rattle.std.specs.Prelude.{◌≡◌, ℕ, ◌<◌, ◌^◌, MatchOption, decimal};
ghost use Rattle.apei_cli.specs.Decimals.{number_in};
ghost use Rattle.apei_cli.specs.Plan.{IsNumberUpTo};

use itoa::Buffer;
use std::str::from_utf8;

/// The number of at most `most` that a text is.
pub(crate) fn number_up_to(text: &[u8], most: u64) -> Option<u64>
    ensures { MatchOption result ((n : ℕ) → ¬ IsNumberUpTo most text.now n) (IsNumberUpTo most text.now) }
{
    let number = number(text)?;
    if number <= most { Some(number) } else { None }
}

// The number that a text is, without a sign and without a zero before other digits.
fn number(text: &[u8]) -> Option<u64>
    ensures number { MatchOption result ((n : ℕ) → ¬ ((text.now ≡ decimal n) × (n < 2 ^ 64)))
        (λ n. (text.now ≡ decimal n) × (n < 2 ^ 64)) }
    ensures value { result ≡ number_in text.now }
{
    let Ok(digits) = from_utf8(text) else {
        return None;
    };
    let Ok(number) = digits.parse::<u64>() else {
        return None;
    };
    if Buffer::new().format(number).as_bytes() == text {
        Some(number)
    } else {
        None
    }
}
