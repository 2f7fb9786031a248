// One line of a script, checked.
ghost use Rattle.std.specs.Prelude.{◌≡◌, ◌≤◌, length, OnOk};
ghost use Rattle.script_lines.specs.declared.lengths.TheConstants.{LONGEST_LINE, LONGEST_BYTES};
ghost use Rattle.script_text.specs.CheckGrammar.{IsValidCheck, check_text_of};
ghost use Rattle.script_text.specs.CheckText.{checked_line_of};
ghost use Rattle.apei_check.specs.Shown.{Shows, ShowsPart, HasStopCause};
ghost use Rattle.apei_check.specs.Texts.{AreShownBy, TakesMemory};

use crate::frames::{check_block, check_record};
use crate::tables::{check_bert, check_erst, check_hest};
use crate::text::{CheckStop, Show};
use apei_bytes::Sink;
use script_text::{CheckLine, decode};
use std::alloc::Global;

/// Writes the lines that a line of a script shows.
pub fn show_line<O: Sink>(
    alloc: Global,
    show: Show,
    line: &CheckLine<'_>,
    buffer: &mut [u8],
    out: &mut O,
) -> Result<(), CheckStop>
    requires valid { IsValidCheck (checked_line_of line.now) }
    requires fits { length (check_text_of (checked_line_of line.now)) ≤ LONGEST_LINE }
    requires room { length buffer.old ≡ LONGEST_BYTES }
    ensures shown { OnOk result (Shows O.tells (AreShownBy show (checked_line_of line.now)) (O.written out.old)
        (O.written out.new)) }
    ensures part { result ≡ Err CheckStop.SinkFault → ShowsPart O.tells (AreShownBy show (checked_line_of line.now))
        (O.written out.old) (O.written out.new) }
    ensures memory { result ≡ Err CheckStop.Memory → TakesMemory (checked_line_of line.now) × (out.new ≡ out.old) }
    ensures cause { HasStopCause (O.faults out.old) (O.faults out.new) result }
{
    match line {
        CheckLine::Blank => Ok(()),
        CheckLine::Erst { hex } => {
            let count = decode(hex, buffer);
            check_erst(alloc, &buffer[..count], show, out)
        }
        CheckLine::Hest { hex } => {
            let count = decode(hex, buffer);
            check_hest(alloc, &buffer[..count], show, out)
        }
        CheckLine::Bert { hex } => {
            let count = decode(hex, buffer);
            check_bert(&buffer[..count], show, out)
        }
        CheckLine::Record { hex } => {
            let count = decode(hex, buffer);
            check_record(&buffer[..count], show, out)
        }
        CheckLine::Block { hex } => {
            let count = decode(hex, buffer);
            check_block(&buffer[..count], show, out)
        }
    }
}
