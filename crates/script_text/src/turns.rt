// The letters of a `turns` line.
ghost use Rattle.std.specs.Prelude.{◌≡◌, ◌==◌, ◌||◌, MatchResult};
ghost use Rattle.script_lines.specs.Columns.{Breaks};
ghost use Rattle.script_text.specs.Turns.{IsTurns, side_of};

use ghes_ack::Side;

// The most turns of one line.
const MAX_TURNS: usize = 4096;

/// Letters of turns, or how far a text goes along with some.
pub(crate) fn turns(text: &[u8]) -> Result<(), usize>
    ensures { MatchResult result (λ _. IsTurns text.now) (λ reach. Breaks IsTurns text.now reach) }
{
    for (i, byte) in text.iter().enumerate() {
        if i == MAX_TURNS || !is_turn(*byte) {
            return Err(i);
        }
    }
    if text.is_empty() {
        return Err(0);
    }
    Ok(())
}

fn is_turn(byte: u8) -> bool
    ensures { result ≡ (byte == 70 || byte == 82) }
{
    byte == b'F' || byte == b'R'
}

/// The side of a letter: `F` is the firmware, `R` the reader.
pub fn side_of(letter: u8) -> Side
    ensures { result ≡ side_of letter }
{
    if letter == b'F' {
        Side::Firmware
    } else {
        Side::Reader
    }
}
