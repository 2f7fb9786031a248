// What may follow a keyword.
ghost use Rattle.std.specs.Prelude.{◌≡◌, ◌-◌, ◌^◌, ◌++◌, ◌∷◌, decimal, MatchResult};
ghost use Rattle.script_lines.specs.Columns.{Breaks};
ghost use Rattle.script_lines.specs.Parts.{IsPairs, IsNumberThen};
ghost use Rattle.hub_script.specs.Turns.{AreTurns, may_stand};

use script_lines::{number, pairs};

/// The most bytes of the turns of a line.
const MAX_TURNS: usize = 4096;

/// A number, one space, and one or more pairs of hexadecimal digits.
pub fn number_and_pairs(text: &[u8]) -> Result<(u64, &[u8]), usize>
    ensures { MatchResult result
        (λ both. IsPairs both.1.now × (text.now ≡ decimal both.0 ++ 32 ∷ both.1.now))
        (λ reach. Breaks (IsNumberThen (2 ^ 64 - 1) IsPairs) text.now reach) }
{
    let Err(len) = number(text, 0, u64::MAX) else {
        return Err(text.len());
    };
    let Ok(value) = number(&text[..len], 0, u64::MAX) else {
        return Err(len);
    };
    if len == text.len() || text[len] != b' ' {
        return Err(len);
    }
    let rest = &text[len + 1..];
    match pairs(rest) {
        Ok(()) => Ok((value, rest)),
        Err(reach) => Err(len + 1 + reach),
    }
}

/// Turns: pairs of a source and a side.
pub fn turns(text: &[u8]) -> Result<(), usize>
    ensures { MatchResult result (λ _. AreTurns text.now) (λ reach. Breaks AreTurns text.now reach) }
{
    for (i, byte) in text.iter().enumerate() {
        if i == MAX_TURNS || !may_stand(i, *byte) {
            return Err(i);
        }
    }
    if text.is_empty() || text.len() % 2 == 1 {
        return Err(text.len());
    }
    Ok(())
}

/// Whether a byte may stand at a place of turns: sources at the even ones, sides at the others.
fn may_stand(at: usize, byte: u8) -> bool
    ensures { result ≡ may_stand at byte }
{
    if at % 2 == 0 {
        byte.is_ascii_digit() || (b'a' <= byte && byte <= b'f')
    } else {
        byte == b'F' || byte == b'R'
    }
}
