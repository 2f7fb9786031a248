// Lines of the bridge: the one that turns it on, and turns while it is on.
ghost use Rattle.std.specs.Prelude.{◌≡◌, ◌≢◌, ◌≤◌, ◌++◌, ◌+◌, ◌↔◌, ℕ, length, take, IsTrue, OnOk, OnErr};
ghost use Rattle.base_model.specs.Faults.{HasCause};
ghost use Rattle.ghes_ack.specs.Machine.{Fits};
ghost use Rattle.erst_bridge.specs.declared.events.BridgeEvent.TheVariants.{Kept as IsKept};
ghost use Rattle.erst_bridge.specs.Bridges.{Off, asker_of};
ghost use Rattle.erst_bridge.specs.Turns.{OfBridge, bridged_machine, MakesTurn};
ghost use Rattle.erst_bridge.specs.Made.{turn_of, side_in};
ghost use Rattle.script_lines.specs.Streams.{stream_of};
ghost use Rattle.script_text.specs.ScriptGrammar.{bridge, turns};
ghost use Rattle.apei_script.specs.Words.{reply_at};
ghost use Rattle.script_text.specs.Turns.{side_of};
ghost use Rattle.apei_script.specs.Bridged.{HasTaken, words_of_turn, words_of_made};
ghost use Rattle.apei_notify.specs.Chains.{boxed};
ghost use Rattle.apei_script.specs.Plays.{PlaysLine, PlaysUnwritten};
ghost use Rattle.apei_script.specs.Sessions.{state_of, SameClients, MakesReply};
ghost use Rattle.apei_script.specs.Played.{stage_of};

use crate::events::hear_of_block;
use crate::machine_refusal::MachineRefusal;
use crate::reply::{end_line, put_number};
use crate::session::Session;
use apei_bytes::{Sink, SinkFault, write_all};
use apei_notify::{Chain, Listener};
use erst_bridge::{Bridge, BridgeEvent, MadeTurn, SideTurn, turn_side};
use erst_client::{Client, ClientError};
use erst_machine::Machine;
use flash_model::Flash;
use ghes_ack::{Event, Station};
use record_slots::RecordId;
use script_lines::LineText;
use script_text::{Refusal, Reply, side_of, word_of};

impl<F: Flash> Session<F> {
    /// Turns the bridge on, where it is off and the reader idle: the first block that is stored gets this identifier.
    pub fn enter_bridge(&mut self, id: u64)
        ensures { MakesReply F.tells (state_of self.old) (bridge id) (state_of self.new) self.new.buffers.reply }
    {
        let Some(first) = RecordId::new(id) else {
            self.buffers.reply.begin(b"refused id");
            return;
        };
        if self.bridge.is_on() {
            self.buffers.reply.begin(b"refused on");
            return;
        }
        if !self.machine.reader_idle() {
            self.buffers.reply.begin(b"refused reading");
            return;
        }
        self.bridge.enter(first);
        put_number(&mut self.buffers.reply, b"bridge ", id);
    }
}

/// Turns of both sides while the bridge is on, one for each letter: those of the reader are the bridge's. The listeners are told of each
/// block when it is taken, and its line is written right after; where the sink refuses that, no further turn is made.
pub fn bridged_turns<F: Flash, O: Sink>(
    session: &mut Session<F>,
    chain: &mut Chain,
    letters: &[u8],
    out: &mut O,
) -> Result<(), SinkFault>
    requires few { length letters.now ≤ 4096 }
    requires on { session.old.bridge ≢ Off }
    ensures played { OnOk result (PlaysLine (boxed hearing) F.tells
        (stream_of O.tells (O.written out.old) (O.written out.new)) (stage_of session.old chain.old)
        (turns letters.now) (stage_of session.new chain.new)) }
    ensures unwritten { OnErr result (PlaysUnwritten (boxed hearing) F.tells
        (stream_of O.tells (O.written out.old) (O.written out.new)) (stage_of session.old chain.old)
        (turns letters.now) (stage_of session.new chain.new)) }
    ensures cause { HasCause (O.faults out.old) (O.faults out.new) result }
{
    session.machine.stands();
    let steps = session.budget();
    session.buffers.made.clear();
    'turning: for letter in letters {
        let turn = bridged_turn(
            &mut session.bridge,
            &mut session.own,
            steps,
            &mut session.machine,
            *letter,
        );
        let taken = took(&turn);
        let step = session.machine.steps();
        session.buffers.made.push(MadeTurn { turn, step }).unwrap();
        if taken {
            hear_of_block(session, chain, out)?;
        }
    }
    let step = session.machine.steps();
    let reply = &mut session.buffers.reply;
    say_made(&session.buffers.made, step, reply, out)
}

/// A turn of the side of a letter. A block that it took is one that the handover's window takes.
fn bridged_turn<F: Flash>(
    bridge: &mut Bridge,
    client: &mut Client,
    steps: u64,
    machine: &mut Machine<F>,
    letter: u8,
) -> SideTurn
    requires { bridge.old ≢ Off }
    ensures turn { MakesTurn F.tells (asker_of client.old steps) (bridged_machine bridge.old machine.old) (turn_of result)
        (bridged_machine bridge.new machine.new) }
    ensures side { side_in (turn_of result) ≡ side_of letter }
    ensures on { bridge.new ≢ Off }
    ensures client { client.new ≡ client.old }
    ensures fits { HasTaken (turn_of result) → Fits 4096 machine.new.handover.last }
{
    machine.stands();
    turn_side(bridge, client, steps, machine, side_of(letter))
}

/// Whether a turn of the bridge took a block.
fn took(turn: &SideTurn) -> bool
    ensures { IsTrue result ↔ HasTaken (turn_of turn.now) }
{
    match turn {
        SideTurn::Bridge(BridgeEvent::Line(event)) => *event == Event::Took,
        _ => false,
    }
}

/// The line of turns, with the flash changes behind each that stored a block or kept one. However long it is, it takes no memory.
fn say_made<O: Sink>(
    made: &[MadeTurn],
    step: u64,
    reply: &mut Reply,
    out: &mut O,
) -> Result<(), SinkFault>
    ensures all { OnOk result (O.tells → O.written out.new
        ≡ O.written out.old ++ reply_at step (words_of_made made.now)) }
    ensures part { OnErr result (O.tells → (n : ℕ)
        × (O.written out.new ≡ O.written out.old ++ take n (reply_at step (words_of_made made.now)))) }
    ensures cause { HasCause (O.faults out.old) (O.faults out.new) result }
{
    reply.begin(b"turns");
    'saying: for turn in made {
        reply.make_room(out)?;
        reply.add(b" ");
        say_turn(turn, reply);
    }
    end_line(reply, step);
    write_all(out, reply.text())
}

/// Adds the words of a turn.
fn say_turn(made: &MadeTurn, reply: &mut Reply)
    requires { length reply.old ≤ 131001 }
    ensures text { reply.new ≡ reply.old ++ words_of_turn (turn_of made.now.turn) made.now.step }
    ensures short { length reply.new ≤ length reply.old + 160 }
{
    match &made.turn {
        SideTurn::Firmware(event) => reply.add(word_of(*event)),
        SideTurn::Bridge(BridgeEvent::Line(event)) => reply.add(word_of(*event)),
        SideTurn::Bridge(BridgeEvent::Stored { id }) => {
            reply.add(b"stored ");
            reply.add_number(id.get());
            reply.add(b" ");
            reply.add_number(made.step);
        }
        SideTurn::Bridge(BridgeEvent::Kept(error)) => say_kept(error, made.step, reply),
        SideTurn::Bridge(BridgeEvent::Out) => reply.add(b"out"),
    }
}

/// Adds the words of a turn that kept a block.
fn say_kept(error: &ClientError, step: u64, reply: &mut Reply)
    requires { length reply.old ≤ 131001 }
    ensures text { reply.new ≡ reply.old ++ words_of_turn (OfBridge (IsKept error.now)) step }
    ensures short { length reply.new ≤ length reply.old + 160 }
{
    let mut text = LineText::new();
    MachineRefusal::Client(*error).add_to(&mut text);
    reply.add(b"kept ");
    reply.add_number(step);
    reply.add(b" ");
    reply.add(text.bytes());
}
