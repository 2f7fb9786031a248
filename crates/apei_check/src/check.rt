// A script, checked line by line.
ghost use Rattle.std.specs.Prelude.{◌≡◌, ◌⊎◌, [], false, length, All};
ghost use Rattle.script_lines.specs.Played.{IsLineOf};
ghost use Rattle.base_model.specs.Faults.{Rose};
ghost use Rattle.script_lines.specs.Causes.{HasCauseOf, OfSource, OfSink};
ghost use Rattle.script_lines.specs.Ends.{fault_of};
ghost use Rattle.script_lines.specs.Lines.{lines_of};
ghost use Rattle.script_lines.specs.Reads.{first_reading};
ghost use Rattle.script_lines.specs.Streams.{stream_of};
ghost use Rattle.script_text.specs.CheckGrammar.{IsCheckLine};
ghost use Rattle.apei_check.specs.Checks.{ChecksScript};

use crate::item::show_line;
use crate::text::{CheckStop, Show};
use apei_bytes::{Sink, Source};
use script_lines::{LONGEST_BYTES, LineReader, ScriptEnd, lines_are_read_in_order};
use script_text::CheckLine;
use std::alloc::Global;

/// Checks the lines of a script, one after another, until it ends or a line ends the check.
fn check_lines<I: Source, O: Sink>(
    alloc: Global,
    show: Show,
    lines: &mut LineReader,
    buffer: &mut [u8],
    script: &mut I,
    out: &mut O,
) -> ScriptEnd
    requires start { lines.old ≡ first_reading }
    requires room { length buffer.old ≡ LONGEST_BYTES }
    ensures source { HasCauseOf OfSource (I.faults script.old) (I.faults script.new) (fault_of result) }
    ensures sink { HasCauseOf OfSink (O.faults out.old) (O.faults out.new) (fault_of result) }
    ensures checked { ChecksScript (stream_of I.tells (I.rest script.old) (I.rest script.new))
        (stream_of O.tells (O.written out.old) (O.written out.new)) show result }
{
    lines_are_read_in_order::<I>();
    'lines: loop {
        let number = match lines.next_line(script) {
            Ok(number) => number,
            Err(end) => return end,
        };
        let line = match CheckLine::parse(lines.line()) {
            Ok(line) => line,
            Err(bad) => {
                return ScriptEnd::BadLine {
                    line: number,
                    column: bad.column,
                };
            }
        };
        match show_line(alloc, show, &line, buffer, out) {
            Ok(()) => {}
            Err(CheckStop::SinkFault) => return ScriptEnd::SinkFault,
            Err(CheckStop::Memory) => return ScriptEnd::Memory,
        }
    }
}

/// Checks the tables, records and blocks of a script, and writes what they show, each line's before the next is read.
///
/// A line has the digits of one, of which ACPI 6.4, chapter 18, and UEFI 2.8, appendix N, say what it is. All memory but that of the
/// parts of an ERST or HEST is taken before the script is read.
pub fn check_script<I: Source, O: Sink>(
    alloc: Global,
    show: Show,
    script: &mut I,
    out: &mut O,
) -> ScriptEnd
    // Where there is no memory to begin with, nothing was touched.
    ensures checked { ((result ≡ ScriptEnd.Memory) × (script.new ≡ script.old) × (out.new ≡ out.old))
        ⊎ ChecksScript (stream_of I.tells (I.rest script.old) (I.rest script.new))
        (stream_of O.tells (O.written out.old) (O.written out.new)) show result }
    ensures source { HasCauseOf OfSource (I.faults script.old) (I.faults script.new) (fault_of result) }
    ensures sink { HasCauseOf OfSink (O.faults out.old) (O.faults out.new) (fault_of result) }
    // A script whose lines are all in the grammar and within the lengths is read to its end, want of memory aside.
    ensures done { I.tells → All (IsLineOf IsCheckLine) (lines_of 0 (I.rest script.old))
        → (Rose (I.faults script.old) (I.faults script.new) → ⊥) → (Rose (O.faults out.old) (O.faults out.new) → ⊥)
        → (result ≡ ScriptEnd.Done) ⊎ (result ≡ ScriptEnd.Memory) }
{
    let Ok(mut lines) = LineReader::new(alloc) else {
        return ScriptEnd::Memory;
    };
    let Ok(mut buffer) = vec![in alloc; 0u8; LONGEST_BYTES] else {
        return ScriptEnd::Memory;
    };
    check_lines(alloc, show, &mut lines, &mut buffer, script, out)
}
