// A line that goes to a sink.
ghost use Rattle.std.specs.Prelude.{◌≡◌, ◌≤◌, [], ◌∷◌, length, OnOk, OnErr};
ghost use Rattle.base_model.specs.Faults.{HasCause};
ghost use Rattle.apei_check.specs.Written.{Writes, WritesPart};
ghost use Rattle.apei_check.specs.declared.text.stop.CheckStop.TheVariants.{SinkFault as TheSinkFault};

use crate::text::CheckStop;
use apei_bytes::{Sink, SinkFault, write_all};
use script_lines::LineText;

impl From<SinkFault> for CheckStop {
    ghost from_gives = { λ _ stop. stop ≡ TheSinkFault };

    fn from(_: SinkFault) -> CheckStop {
        CheckStop::SinkFault
    }
}

/// Writes the line and its newline, by one write where the sink takes them whole.
pub(crate) fn write_line<O: Sink>(line: LineText, out: &mut O) -> Result<(), SinkFault>
    requires { length line ≤ 255 }
    ensures all { OnOk result (Writes O.tells (line ∷ []) (O.written out.old) (O.written out.new)) }
    ensures part { OnErr result (WritesPart O.tells (line ∷ []) (O.written out.old) (O.written out.new)) }
    ensures cause { HasCause (O.faults out.old) (O.faults out.new) result }
{
    let mut text = line;
    text.add(b"\n");
    write_all(out, text.bytes())
}
