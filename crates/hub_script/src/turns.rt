// Turns of a hub's sources.
ghost use Rattle.std.specs.Prelude.{◌≡◌, ◌+◌, ◌*◌, ◌<◌, ◌≤◌, ◌++◌, ℕ, length, map, codes, MatchBool, OnOk, OnErr, IfOk, get_or};
ghost use Rattle.base_model.specs.Faults.{HasCause};
ghost use Rattle.apei_notify.specs.Chains.{boxed};
ghost use Rattle.ghes_ack.specs.declared.events.Event.TheVariants.{Took};
ghost use Rattle.ghes_hub.specs.{Hubs.sources_in, Hubs.HubTurns, Hubs.last_in, Runs.takes, Runs.told_at, Seen.seen};
ghost use Rattle.hub_script.specs.HubGrammar.{turns};
ghost use Rattle.hub_script.specs.Turns.{AreTurns};
ghost use Rattle.hub_script.specs.Stages.{Serving};
ghost use Rattle.hub_script.specs.Plays.{source_of, AllNamed};
ghost use Rattle.hub_script.specs.Lines.{PlaysLine, PlaysUnwritten};
ghost use Rattle.hub_script.specs.Replies.{word_of, words_of_block, text_of_replies, reply_line};
ghost use Rattle.script_lines.specs.Streams.{stream_of};
ghost use Rattle.script_text.specs.Shown.{IsPartWritten};

use crate::blocks::show_block;
use crate::reply::end_line;
use crate::session::Session;
use apei_bytes::{Sink, SinkFault, write_all};
use ghes_ack::{Event, Side};
use ghes_hub::Hub;
use script_text::{Reply, side_of, word_of};

/// What is behind the digit 9 is 10 from the letter `a` on.
const BEFORE_LETTERS: u8 = b'a' - 10;

/// The source of a hexadecimal digit in lower case.
fn source_of(digit: u8) -> u32
    ensures { result ≡ source_of digit }
{
    if digit <= b'9' {
        u32::from(digit.saturating_sub(b'0'))
    } else {
        u32::from(digit.saturating_sub(BEFORE_LETTERS))
    }
}

/// Whether each pair names a source.
pub fn are_named(hub: &Hub, pairs: &[u8]) -> bool
    requires { AreTurns pairs.now }
    ensures { MatchBool result (AllNamed (seen hub.now) pairs.now)
        ((at : ℕ) × (2 * at < length pairs.now) × (sources_in (seen hub.now) ≤ source_of (get_or pairs.now (2 * at) 0))) }
{
    'naming: for at in 0..pairs.len() / 2 {
        if source_of(pairs[2 * at]) >= hub.sources() {
            return false;
        }
    }
    true
}

/// Turns of the sources, one for each pair. The listeners of a source are told of each block when it is taken, and its line is written
/// right after; where the sink refuses that, no further turn is made.
pub fn take_turns<O: Sink>(
    hub: &mut Hub,
    pairs: &[u8],
    session: &mut Session,
    out: &mut O,
) -> Result<(), SinkFault>
    requires valid { AreTurns pairs.now }
    requires named { AllNamed (seen hub.old) pairs.now }
    ensures played { OnOk result (PlaysLine (boxed hearing) (stream_of O.tells (O.written out.old) (O.written out.new))
        (Serving (seen hub.old)) (turns pairs.now) (Serving (seen hub.new))) }
    ensures unwritten { OnErr result
        (PlaysUnwritten (boxed hearing) (stream_of O.tells (O.written out.old) (O.written out.new))
        (Serving (seen hub.old)) (turns pairs.now) (Serving (seen hub.new))) }
    ensures cause { HasCause (O.faults out.old) (O.faults out.new) result }
{
    session.events.begin(b"turns");
    'turning: for at in 0..pairs.len() / 2 {
        let source = source_of(pairs[2 * at]);
        let side = side_of(pairs[2 * at + 1]);
        let event = take_turn(hub, source, side, &mut session.reply, out)?;
        say_event(&mut session.events, event);
    }
    end_line(&mut session.events);
    write_all(out, session.events.text())
}

/// A turn of a side of a source. The line of a block that it took is written.
fn take_turn<O: Sink>(
    hub: &mut Hub,
    source: u32,
    side: Side,
    reply: &mut Reply,
    out: &mut O,
) -> Result<Event, SinkFault>
    requires { source < sources_in (seen hub.old) }
    ensures turned { IfOk result (λ event. HubTurns (boxed hearing) source side event (seen hub.old) (seen hub.new)) }
    ensures shown { IfOk result (λ event. O.tells → O.written out.new ≡ O.written out.old
        ++ text_of_replies (map (words_of_block source) (told_at event (last_in (seen hub.new).sources source)))) }
    ensures took { OnErr result (HubTurns (boxed hearing) source side Took (seen hub.old) (seen hub.new)) }
    ensures part { OnErr result (O.tells
        → IsPartWritten (reply_line (words_of_block source (last_in (seen hub.new).sources source)))
        (O.written out.old) (O.written out.new)) }
    ensures cause { HasCause (O.faults out.old) (O.faults out.new) result }
{
    let event = hub.turn(source, side);
    if !is_taking(event) {
        return Ok(event);
    }
    show_block(reply, source, hub.taken(source), out)?;
    Ok(event)
}

/// Says an event behind those before it.
fn say_event(events: &mut Reply, event: Event)
    requires { length events.old + 8 ≤ 131264 }
    ensures { events.new ≡ events.old ++ (codes " " ++ word_of event) }
{
    events.add(b" ");
    events.add(word_of(event));
}

/// Whether the reader took a block.
fn is_taking(event: Event) -> bool
    ensures { result ≡ takes event }
{
    matches!(event, Event::Took)
}
