// The lines of an item that are shown.
ghost use Rattle.std.specs.Prelude.{ℕ, ◌≤◌, List, length, OnOk, OnErr};
ghost use Rattle.base_model.specs.Faults.{HasCause};
ghost use Rattle.apei_check.specs.Shown.{lines_shown};
ghost use Rattle.apei_check.specs.Written.{Writes, WritesPart};

use crate::text::Show;
use apei_bytes::{Sink, SinkFault};
use script_lines::LineText;

/// An item whose parts have a line each.
pub(crate) trait Parts {
    // What is true of each item that was decoded.
    ghost is_decoded: { Self → Type 0 };

    // The lines on its parts.
    ghost lines: { Self → List (List ℕ) };

    /// Writes the line of each part.
    fn write_parts<O: Sink>(&self, out: &mut O) -> Result<(), SinkFault>
        requires { is_decoded self.now }
        ensures all { OnOk result (Writes O.tells (lines self.now) (O.written out.old) (O.written out.new)) }
        ensures part { OnErr result (WritesPart O.tells (lines self.now) (O.written out.old) (O.written out.new)) }
        ensures cause { HasCause (O.faults out.old) (O.faults out.new) result };
}

impl Show {
    /// Writes the lines of an item that are to be shown: the one on the whole of it, and those on its parts.
    pub(crate) fn write<P: Parts, O: Sink>(
        self,
        head: LineText,
        item: &P,
        out: &mut O,
    ) -> Result<(), SinkFault>
        requires decoded { P.is_decoded item.now }
        requires short { length head ≤ 255 }
        ensures all { OnOk result (Writes O.tells (lines_shown self head (P.lines item.now)) (O.written out.old)
            (O.written out.new)) }
        ensures part { OnErr result (WritesPart O.tells (lines_shown self head (P.lines item.now)) (O.written out.old)
            (O.written out.new)) }
        ensures cause { HasCause (O.faults out.old) (O.faults out.new) result }
    {
        self.write_head(head, out)?;
        if !self.parts() {
            return Ok(());
        }
        item.write_parts(out)
    }
}
