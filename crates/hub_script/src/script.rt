// A script of several error sources, played line by line.
ghost use Rattle.std.specs.Prelude.{◌≡◌, ◌⊎◌, ⊤, All};
ghost use Rattle.base_model.specs.Faults.{Rose};
ghost use Rattle.script_lines.specs.{Causes.HasCauseOf, Causes.OfSource, Causes.OfSink, Ends.fault_of, Lines.lines_of, Played.IsLineOf, Reads.first_reading, Streams.stream_of};
ghost use Rattle.hub_script.specs.{HubGrammar.IsLine, Made.stage_of, Scripts.PlaysScript, Scripts.ServesScript};

use crate::player::{HubPlayer, HubStop};
use apei_bytes::{Sink, Source};
use apei_notify::Listener;
use script_lines::{LineReader, ScriptEnd, lines_are_read_in_order};
use std::alloc::Global;

/// Plays the lines of a script, one after another, until it ends or a line stops it.
fn play_lines<I: Source, O: Sink>(
    lines: &mut LineReader,
    player: &mut HubPlayer,
    script: &mut I,
    out: &mut O,
) -> ScriptEnd
    requires { lines.old ≡ first_reading }
    ensures source { HasCauseOf OfSource (I.faults script.old) (I.faults script.new) (fault_of result) }
    ensures sink { HasCauseOf OfSink (O.faults out.old) (O.faults out.new) (fault_of result) }
    ensures played { PlaysScript hearing (stream_of I.tells (I.rest script.old) (I.rest script.new))
        (stream_of O.tells (O.written out.old) (O.written out.new))
        (stage_of player.old) (stage_of player.new) result }
{
    lines_are_read_in_order::<I>();
    'lines: loop {
        let number = match lines.next_line(script) {
            Ok(number) => number,
            Err(end) => return end,
        };
        match player.play(lines.line(), out) {
            Ok(()) => {}
            Err(HubStop::BadLine { column }) => {
                return ScriptEnd::BadLine {
                    line: number,
                    column,
                };
            }
            Err(HubStop::SinkFault) => return ScriptEnd::SinkFault,
            Err(HubStop::Memory) => return ScriptEnd::Memory,
        }
    }
}

/// Plays a script on the hub that one of its lines opens, writes the replies to each line before the next is read, and gives the
/// listeners back that no line dropped: source by source where a hub was opened, and else in their order.
///
/// All memory but that of a table and its hub is taken before the script is read.
pub fn serve_script<I: Source, O: Sink>(
    alloc: Global,
    listeners: Vec<Box<dyn Listener>>,
    script: &mut I,
    out: &mut O,
) -> (ScriptEnd, Vec<Box<dyn Listener>>)
    requires { ⊤ }
    // Where there is no memory to begin with, nothing was touched.
    ensures served { ((result.0 ≡ ScriptEnd.Memory) × ((script.new ≡ script.old) × (out.new ≡ out.old))
        × (result.1.items ≡ listeners.items))
        ⊎ ServesScript hearing (stream_of I.tells (I.rest script.old) (I.rest script.new))
        (stream_of O.tells (O.written out.old) (O.written out.new)) listeners.items result.1.items result.0 }
    ensures source { HasCauseOf OfSource (I.faults script.old) (I.faults script.new) (fault_of result.0) }
    ensures sink { HasCauseOf OfSink (O.faults out.old) (O.faults out.new) (fault_of result.0) }
    // A script whose lines are all in the grammar and within the lengths is read to its end, want of memory aside.
    ensures done { I.tells → All (IsLineOf IsLine) (lines_of 0 (I.rest script.old))
        → (Rose (I.faults script.old) (I.faults script.new) → ⊥) → (Rose (O.faults out.old) (O.faults out.new) → ⊥)
        → (result.0 ≡ ScriptEnd.Done) ⊎ (result.0 ≡ ScriptEnd.Memory) }
{
    let Ok(mut lines) = LineReader::new(alloc) else {
        return (ScriptEnd::Memory, listeners);
    };
    let mut player = match HubPlayer::new(alloc, listeners) {
        Ok(player) => player,
        Err(listeners) => return (ScriptEnd::Memory, listeners),
    };
    let end = play_lines(&mut lines, &mut player, script, out);
    (end, player.into_members())
}
