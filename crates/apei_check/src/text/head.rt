// The line on the whole of an item.
ghost use Rattle.std.specs.Prelude.{◌≤◌, length, OnOk, OnErr, ◌∷◌, if◌then◌else◌, ◌==◌, []};
ghost use Rattle.std.specs.Int.RustNames.{bit_and};
ghost use Rattle.base_model.specs.Faults.{HasCause};
ghost use Rattle.apei_check.specs.Written.{Writes, WritesPart};

use crate::text::{Show, write_line};
use apei_bytes::{Sink, SinkFault};
use script_lines::LineText;

impl Show {
    /// Writes the line on the whole item, where it is asked for.
    pub(crate) fn write_head<O: Sink>(self, line: LineText, out: &mut O) -> Result<(), SinkFault>
        requires { length line ≤ 255 }
        ensures all { OnOk result (Writes O.tells (if (bit_and self.0 1 == 1) then line ∷ [] else []) (O.written out.old) (O.written out.new)) }
        ensures part { OnErr result (WritesPart O.tells (if (bit_and self.0 1 == 1) then line ∷ [] else []) (O.written out.old)
            (O.written out.new)) }
        ensures cause { HasCause (O.faults out.old) (O.faults out.new) result }
    {
        if self.head() {
            write_line(line, out)
        } else {
            Ok(())
        }
    }
}
