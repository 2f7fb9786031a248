// The line of an item that is refused.
ghost use Rattle.std.specs.Prelude.{◌≡◌, ◌≤◌, [], ◌∷◌, ◌++◌, length, OnOk, OnErr};
ghost use Rattle.base_model.specs.Faults.{HasCause};
ghost use Rattle.apei_check.specs.Written.{Writes, WritesPart};

use crate::text::write_line;
use apei_bytes::{Sink, SinkFault};
use script_lines::LineText;
use script_text::Refusal;

/// Writes the one line of an item that is refused, whatever is to be shown: what it begins with, and the words of the refusal.
pub(crate) fn write_refused<R: Refusal, O: Sink>(
    front: &[u8],
    why: &R,
    out: &mut O,
) -> Result<(), SinkFault>
    requires told { R.has_words why.now }
    requires short { length front.now ≤ 100 }
    requires room { length front.now ≤ R.most_before }
    ensures all { OnOk result (Writes O.tells ((front.now ++ R.words why.now) ∷ []) (O.written out.old)
        (O.written out.new)) }
    ensures part { OnErr result (WritesPart O.tells ((front.now ++ R.words why.now) ∷ []) (O.written out.old)
        (O.written out.new)) }
    ensures cause { HasCause (O.faults out.old) (O.faults out.new) result }
{
    let mut line = LineText::new();
    line.add(front);
    why.add_to(&mut line);
    write_line(line, out)
}
