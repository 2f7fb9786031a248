// Lines that the listeners have a part in, and that of the boot error region: they have more than one reply, or one of any length.
ghost use Rattle.std.specs.Prelude.{◌≡◌, ◌≤◌, ◌++◌, ◌∷◌, [], ℕ, List, length, take, true, false, IsTrue, OnOk, OnErr, IfSome, Some, None, Ok, ◌+◌, ◌-◌, ◌<◌, codes, decimal};
ghost use Rattle.apei_notify.specs.Telling.{counts_of};
ghost use Rattle.base_model.specs.Bytes.{part};
ghost use Rattle.base_model.specs.Faults.{HasCause};
ghost use Rattle.ghes_block.specs.Region.{next_from};
ghost use Rattle.ghes_ack.specs.Machine.{Fits};
ghost use Rattle.erst_machine.specs.Events.{Turns};
ghost use Rattle.apei_script.specs.Replies.{IsMade};
ghost use Rattle.script_lines.specs.Streams.{stream_of};
ghost use Rattle.script_text.specs.ScriptGrammar.{turns as turns_of};
ghost use Rattle.script_text.specs.Turns.{side_of};
ghost use Rattle.apei_script.specs.Words.{words_of_turns, words_of_heard, words_of_block, reply_at};
ghost use Rattle.apei_notify.specs.Chains.{members_of, boxed};
ghost use Rattle.apei_script.specs.Plays.{changes_in, stage_in, Occurred, OccurredUnwritten, Told};
ghost use Rattle.apei_script.specs.Sessions.{state_of, SameClients, Lists, ListsUnwritten};

use crate::reply::{end_line, put_block};
use crate::session::Session;
use apei_bytes::{Sink, SinkFault, get_u32, write_all};
use apei_notify::{Chain, Listener};
use apei_space::Space;
use erst_machine::{BOOT_ERRORS, Machine};
use flash_model::Flash;
use ghes_ack::Event;
use script_text::{Reply, side_of, word_of};

/// Turns of both sides, one for each letter. The listeners are told of each block when it is taken, and its line is written right after;
/// where the sink refuses that, no further turn is made.
pub fn turns<F: Flash, O: Sink>(
    session: &mut Session<F>,
    chain: &mut Chain,
    letters: &[u8],
    out: &mut O,
) -> Result<(), SinkFault>
    requires { length letters.now ≤ 4096 }
    ensures occurred { OnOk result (Occurred (boxed hearing) F.tells
        (stream_of O.tells (O.written out.old) (O.written out.new)) (stage_in session.old.machine (members_of chain.old))
        (turns_of letters.now) (stage_in session.new.machine (members_of chain.new))) }
    ensures unwritten { OnErr result (OccurredUnwritten (boxed hearing) F.tells
        (stream_of O.tells (O.written out.old) (O.written out.new)) (stage_in session.old.machine (members_of chain.old))
        (turns_of letters.now) (stage_in session.new.machine (members_of chain.new))) }
    ensures clients { SameClients session.old session.new }
    ensures bridge { session.new.bridge ≡ session.old.bridge }
    ensures cause { HasCause (O.faults out.old) (O.faults out.new) result }
{
    session.buffers.events.clear();
    'turning: for letter in letters {
        let event = turn(&mut session.machine, *letter);
        session.buffers.events.push(event).unwrap();
        if event == Event::Took {
            hear_of_block(session, chain, out)?;
        }
    }
    let step = session.machine.steps();
    let reply = &mut session.buffers.reply;
    say_turns(&session.buffers.events, reply);
    end_line(reply, step);
    write_all(out, reply.text())
}

/// A turn of the side of a letter. A block that it took is one that the handover's window takes.
fn turn<F: Flash>(machine: &mut Machine<F>, letter: u8) -> Event
    ensures turned { Turns (side_of letter) machine.old result machine.new }
    ensures took { result ≡ Event.Took → Fits 4096 machine.new.handover.last }
{
    machine.stands();
    machine.turn(side_of(letter))
}

/// The offset of a block's severity.
const SEVERITY: usize = 16;

/// Tells the listeners of the block that was taken last, and writes its line.
pub fn hear_of_block<F: Flash, O: Sink>(
    session: &mut Session<F>,
    chain: &mut Chain,
    out: &mut O,
) -> Result<(), SinkFault>
    requires { Fits 4096 session.old.machine.handover.last }
    ensures told { Told (boxed hearing) (session.old.machine.handover.last ∷ []) (members_of chain.old) (members_of chain.new) }
    ensures all { OnOk result (O.tells → O.written out.new
        ≡ O.written out.old ++ reply_at (changes_in session.old.machine)
        (words_of_block session.old.machine.handover.last)) }
    ensures part { OnErr result (O.tells → (n : ℕ)
        × (O.written out.new ≡ O.written out.old ++ take n (reply_at (changes_in session.old.machine)
        (words_of_block session.old.machine.handover.last)))) }
    ensures machine { session.new.machine ≡ session.old.machine }
    ensures clients { SameClients session.old session.new }
    ensures bridge { session.new.bridge ≡ session.old.bridge }
    ensures events { session.new.buffers.events ≡ session.old.buffers.events }
    ensures made { session.new.buffers.made ≡ session.old.buffers.made }
    ensures cause { HasCause (O.faults out.old) (O.faults out.new) result }
{
    let step = session.machine.steps();
    let block = session.machine.taken();
    chain.tell(get_u32(block, SEVERITY), block);
    let reply = &mut session.buffers.reply;
    put_block(reply, block);
    end_line(reply, step);
    write_all(out, reply.text())
}

/// The words of turns.
fn say_turns(events: &[Event], reply: &mut Reply)
    requires { length events.now ≤ 4096 }
    ensures { IsMade reply.new (words_of_turns events.now) }
{
    reply.begin(b"turns");
    'saying: for event in events {
        reply.add(b" ");
        reply.add(word_of(*event));
    }
}

/// Shows each block of the boot error region, and then how many there are.
pub fn list_blocks<F: Flash, O: Sink>(
    session: &mut Session<F>,
    out: &mut O,
) -> Result<(), SinkFault>
    ensures listed { OnOk result (Lists F.tells (stream_of O.tells (O.written out.old) (O.written out.new))
        session.old.machine) }
    ensures unwritten { OnErr result (ListsUnwritten F.tells
        (stream_of O.tells (O.written out.old) (O.written out.new)) session.old.machine) }
    ensures session { state_of session.new ≡ state_of session.old }
    ensures cause { HasCause (O.faults out.old) (O.faults out.new) result }
{
    session.machine.stands();
    let mut at = 0;
    let mut count = 0u64;
    'listing: while let Some(next) = next_block(&session.machine, at) {
        show_block(session, at, next, out)?;
        at = next;
        count += 1;
    }
    end_list(session, count, out)
}

/// The place behind the block that stands at a place of the boot error region, `None` where none begins there.
fn next_block<F: Flash>(machine: &Machine<F>, at: u32) -> Option<u32>
    requires { at ≤ 16384 }
    ensures found { IfSome result (λ next. next_from machine.now.memory.region at ≡ Ok (Some next)) }
    ensures none { result ≡ None → (next : ℕ) → next_from machine.now.memory.region at ≡ Ok (Some next) → ⊥ }
{
    match machine.bert_at(at) {
        Ok(Some((_, next))) => Some(next),
        Ok(None) => None,
        Err(_) => None,
    }
}

/// Shows the block from one place of the boot error region to another.
fn show_block<F: Flash, O: Sink>(
    session: &mut Session<F>,
    at: u32,
    next: u32,
    out: &mut O,
) -> Result<(), SinkFault>
    requires head { at + 20 ≤ next }
    requires within { next ≤ 16384 }
    ensures all { OnOk result (O.tells → O.written out.new
        ≡ O.written out.old ++ reply_at (changes_in session.old.machine)
        (words_of_block (part session.old.machine.memory.region at (next - at)))) }
    ensures part { OnErr result (O.tells → (n : ℕ)
        × (O.written out.new ≡ O.written out.old ++ take n (reply_at (changes_in session.old.machine)
        (words_of_block (part session.old.machine.memory.region at (next - at)))))) }
    ensures session { state_of session.new ≡ state_of session.old }
    ensures cause { HasCause (O.faults out.old) (O.faults out.new) result }
{
    let step = session.machine.steps();
    make_block(
        &mut session.machine,
        at,
        next,
        &mut session.buffers.bytes,
        &mut session.buffers.reply,
    );
    end_line(&mut session.buffers.reply, step);
    write_all(out, session.buffers.reply.text())
}

/// The reply to a block from one place of the boot error region to another.
fn make_block<F: Flash>(
    machine: &mut Machine<F>,
    at: u32,
    next: u32,
    bytes: &mut [u8],
    reply: &mut Reply,
)
    requires head { at + 20 ≤ next }
    requires within { next ≤ 16384 }
    requires room { 16384 ≤ length bytes.old }
    ensures made { IsMade reply.new (words_of_block (part machine.old.memory.region at (next - at))) }
    ensures machine { machine.new ≡ machine.old }
    ensures size { length bytes.new ≡ length bytes.old }
{
    let block = &mut bytes[..(next - at) as usize];
    region_bytes(machine, at, block);
    put_block(reply, block);
}

/// The bytes from a place of the boot error region on.
fn region_bytes<F: Flash>(machine: &mut Machine<F>, at: u32, out: &mut [u8])
    requires some { 0 < length out.old }
    requires within { at + length out.old ≤ 16384 }
    ensures bytes { out.new ≡ part machine.old.memory.region at (length out.old) }
    ensures machine { machine.new ≡ machine.old }
{
    machine.stands();
    let _ = machine.read_bytes(BOOT_ERRORS + u64::from(at), out);
}

/// Shows how many blocks there are.
fn end_list<F: Flash, O: Sink>(
    session: &mut Session<F>,
    count: u64,
    out: &mut O,
) -> Result<(), SinkFault>
    ensures all { OnOk result (O.tells → O.written out.new
        ≡ O.written out.old ++ reply_at (changes_in session.old.machine) (codes "bert " ++ decimal count)) }
    ensures part { OnErr result (O.tells → (n : ℕ)
        × (O.written out.new ≡ O.written out.old ++ take n (reply_at (changes_in session.old.machine)
        (codes "bert " ++ decimal count)))) }
    ensures session { state_of session.new ≡ state_of session.old }
    ensures cause { HasCause (O.faults out.old) (O.faults out.new) result }
{
    let step = session.machine.steps();
    let reply = &mut session.buffers.reply;
    reply.begin(b"bert ");
    reply.add_number(count);
    end_line(reply, step);
    write_all(out, reply.text())
}

/// Shows how often each listener has heard of an error. However many they are, their counts take no memory.
pub fn say_heard<F: Flash, O: Sink>(
    session: &mut Session<F>,
    chain: &Chain,
    out: &mut O,
) -> Result<(), SinkFault>
    ensures session { state_of session.new ≡ state_of session.old }
    ensures all { OnOk result (O.tells → O.written out.new ≡ O.written out.old
        ++ reply_at (changes_in session.old.machine) (words_of_heard (counts_of (boxed hearing) (members_of chain.now)))) }
    ensures part { OnErr result (O.tells → (n : ℕ) × (O.written out.new ≡ O.written out.old
        ++ take n (reply_at (changes_in session.old.machine) (words_of_heard (counts_of (boxed hearing) (members_of chain.now)))))) }
    ensures cause { HasCause (O.faults out.old) (O.faults out.new) result }
{
    let step = session.machine.steps();
    let reply = &mut session.buffers.reply;
    reply.begin(b"heard");
    'hearing: for at in 0..chain.len() {
        reply.make_room(out)?;
        reply.add(b" ");
        reply.add_number(chain.heard(at));
    }
    end_line(reply, step);
    write_all(out, reply.text())
}
