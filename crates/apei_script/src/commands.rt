// What a line asks of the client in use.
ghost use Rattle.std.specs.Prelude.{◌≡◌, ◌*◌, ◌≤◌, ℕ, List, length, true, Ok, unwrap_or};
ghost use Rattle.erst_client.specs.Timings.{enough_steps};
ghost use Rattle.script_lines.specs.declared.lengths.TheConstants.{LONGEST_BYTES};
ghost use Rattle.script_lines.specs.Parts.{IsPairs};
ghost use Rattle.script_text.specs.ScriptGrammar.{Line, write, read, clear, count, next, dummy, action};
ghost use Rattle.script_text.specs.ScriptText.{line_of};
ghost use Rattle.apei_script.specs.{Players.asker_of, Words.words_of_write, Replies.IsMade, Asked.Answers, Plays.IsPlayable, Plays.asks_client, Sessions.state_of, Sessions.MakesReply};

use crate::machine_refusal::MachineRefusal;
use crate::refusals::{refuse, refuse_behind};
use crate::reply::{put_number, put_record};
use crate::session::Session;
use apei_bytes::get_u64;
use cper_frame::ID_AT;
use erst_client::Client;
use erst_interp::{Budget, run};
use erst_machine::Machine;
use flash_model::Flash;
use script_text::{Reply, ScriptLine, decode};

/// The bytes of the longest record that is read.
pub const READ_BUFFER: usize = 65_536;

impl<F: Flash> Session<F> {
    /// Carries out what a line asks of the client in use.
    pub fn ask(&mut self, line: &ScriptLine<'_>)
        requires playable { IsPlayable (line_of line.now) }
        requires asks { asks_client (line_of line.now) ≡ true }
        ensures { MakesReply F.tells (state_of self.old) (line_of line.now) (state_of self.new) self.new.buffers.reply }
    {
        match &mut self.other {
            Some(client) => run_command(
                client,
                &mut self.machine,
                self.steps,
                line,
                &mut self.buffers.bytes,
                &mut self.buffers.reply,
            ),
            None => run_command(
                &mut self.own,
                &mut self.machine,
                self.steps,
                line,
                &mut self.buffers.bytes,
                &mut self.buffers.reply,
            ),
        }
    }
}

/// Runs a line's command by a client, under the budget of one line.
fn run_command<F: Flash>(
    client: &mut Client,
    machine: &mut Machine<F>,
    steps: Option<u64>,
    line: &ScriptLine<'_>,
    bytes: &mut [u8],
    reply: &mut Reply,
)
    requires playable { IsPlayable (line_of line.now) }
    requires asks { asks_client (line_of line.now) ≡ true }
    requires room { length bytes.old ≡ LONGEST_BYTES }
    ensures answers { Answers F.tells (asker_of client.old (unwrap_or steps (enough_steps client.old.timings))) machine.old
        (line_of line.now) machine.new reply.new }
    ensures kept { client.new ≡ client.old }
    ensures size { length bytes.new ≡ length bytes.old }
{
    let steps = steps.unwrap_or(client.enough());
    match line {
        ScriptLine::Write { hex } => write_record(client, machine, steps, hex, bytes, reply),
        ScriptLine::Read { id } => read_record(client, machine, steps, *id, bytes, reply),
        ScriptLine::Clear { id } => clear_record(client, machine, steps, *id, reply),
        ScriptLine::Count => count_records(client, machine, steps, reply),
        ScriptLine::Next => show_next(client, machine, steps, reply),
        ScriptLine::Dummy => write_dummy(client, machine, steps, reply),
        ScriptLine::Action { code, value } => run_action(
            client, machine, steps, *code, *value, reply,
        ),
        _ => unreachable!(),
    }
}

/// Writes the record of a line.
fn write_record<F: Flash>(
    client: &mut Client,
    machine: &mut Machine<F>,
    steps: u64,
    hex: &[u8],
    bytes: &mut [u8],
    reply: &mut Reply,
)
    requires pairs { IsPairs hex.now }
    requires room { length hex.now ≤ 2 * length bytes.old }
    ensures answers { Answers F.tells (asker_of client.old steps) machine.old (write hex.now) machine.new reply.new }
    ensures kept { client.new ≡ client.old }
    ensures size { length bytes.new ≡ length bytes.old }
{
    let len = decode(hex, bytes);
    match client.write(&bytes[..len], &mut Budget::new(steps), machine) {
        Ok(()) => wrote(&bytes[..len], reply),
        Err(error) => refuse(reply, &MachineRefusal::Client(error)),
    }
}

/// The reply to a record that was written.
fn wrote(bytes: &[u8], reply: &mut Reply)
    requires { 128 ≤ length bytes.now }
    ensures { IsMade reply.new (words_of_write bytes.now (Ok tt)) }
{
    reply.begin(b"wrote ");
    reply.add_number(get_u64(bytes, ID_AT));
    reply.add(b" ");
    reply.add_number(bytes.len() as u64);
}

/// Shows the record of an identifier.
fn read_record<F: Flash>(
    client: &mut Client,
    machine: &mut Machine<F>,
    steps: u64,
    id: u64,
    bytes: &mut [u8],
    reply: &mut Reply,
)
    requires room { 65536 ≤ length bytes.old }
    ensures answers { Answers F.tells (asker_of client.old steps) machine.old (read id) machine.new reply.new }
    ensures kept { client.new ≡ client.old }
    ensures size { length bytes.new ≡ length bytes.old }
{
    let out = &mut bytes[..READ_BUFFER];
    match client.read(id, out, &mut Budget::new(steps), machine) {
        Ok(len) => put_record(reply, &out[..len]),
        Err(error) => refuse(reply, &MachineRefusal::Client(error)),
    }
}

/// Clears an identifier.
fn clear_record<F: Flash>(
    client: &mut Client,
    machine: &mut Machine<F>,
    steps: u64,
    id: u64,
    reply: &mut Reply,
)
    ensures answers { Answers F.tells (asker_of client.old steps) machine.old (clear id) machine.new reply.new }
    ensures kept { client.new ≡ client.old }
{
    match client.clear(id, &mut Budget::new(steps), machine) {
        Ok(()) => put_number(reply, b"cleared ", id),
        Err(error) => refuse(reply, &MachineRefusal::Client(error)),
    }
}

/// Counts the records.
fn count_records<F: Flash>(
    client: &mut Client,
    machine: &mut Machine<F>,
    steps: u64,
    reply: &mut Reply,
)
    ensures answers { Answers F.tells (asker_of client.old steps) machine.old count machine.new reply.new }
    ensures kept { client.new ≡ client.old }
{
    match client.count(&mut Budget::new(steps), machine) {
        Ok(count) => put_number(reply, b"count ", count),
        Err(error) => refuse(reply, &MachineRefusal::Client(error)),
    }
}

/// Shows the next identifier.
fn show_next<F: Flash>(client: &mut Client, machine: &mut Machine<F>, steps: u64, reply: &mut Reply)
    ensures answers { Answers F.tells (asker_of client.old steps) machine.old next machine.new reply.new }
    ensures kept { client.new ≡ client.old }
{
    match client.next(&mut Budget::new(steps), machine) {
        Ok(Some(id)) => put_number(reply, b"next ", id),
        Ok(None) => reply.begin(b"next end"),
        Err(error) => refuse(reply, &MachineRefusal::Client(error)),
    }
}

/// Goes through a write that stores nothing.
fn write_dummy<F: Flash>(
    client: &mut Client,
    machine: &mut Machine<F>,
    steps: u64,
    reply: &mut Reply,
)
    ensures answers { Answers F.tells (asker_of client.old steps) machine.old dummy machine.new reply.new }
    ensures kept { client.new ≡ client.old }
{
    match client.dummy(&mut Budget::new(steps), machine) {
        Ok(()) => reply.begin(b"dummy ok"),
        Err(error) => refuse(reply, &MachineRefusal::Client(error)),
    }
}

/// Runs the program of an action of the client's table.
fn run_action<F: Flash>(
    client: &Client,
    machine: &mut Machine<F>,
    steps: u64,
    code: u64,
    value: u64,
    reply: &mut Reply,
)
    requires { code ≤ 255 }
    ensures answers { Answers F.tells (asker_of client.now steps) machine.old (action code value) machine.new
        reply.new }
{
    let program = client.table().program(code as u8);
    match run(&program, value, &mut Budget::new(steps), machine) {
        Ok(result) => put_number(reply, b"result ", result),
        Err(stop) => refuse_behind(reply, b"stopped ", &MachineRefusal::Program(stop)),
    }
}
