// A number in decimal digits.
ghost use Rattle.std.specs.Prelude.{◌≡◌, MatchOption, decimal};
ghost use Rattle.script_lines.specs.Parts.{IsNumber};

/// The number below 2^64 that a text is, without a sign and without a zero before other digits.
pub(crate) fn number(text: &str) -> Option<u64>
    ensures { MatchOption result (¬ IsNumber 0 0xFFFF_FFFF_FFFF_FFFF text.now) (λ n. text.now ≡ decimal n) }
{
    match script_lines::number(text.as_bytes(), 0, u64::MAX) {
        Ok(number) => Some(number),
        Err(_) => None,
    }
}
