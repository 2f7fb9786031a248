// Commands of the client in use that no line gave: each is played as its line is, and its result answered in place of the line's reply.
ghost use Rattle.std.specs.Prelude.{◌≡◌, ◌≤◌, length};
ghost use Rattle.hex.specs.Hex.{encode_lower};
ghost use Rattle.script_text.specs.ScriptGrammar.{write, clear, count, next};
ghost use Rattle.apei_script.specs.Players.{budget_of, asker_of};
ghost use Rattle.apei_script.specs.Words.{words_of_write, words_of_clear, words_of_count, words_of_next};
ghost use Rattle.apei_script.specs.Asked.{ReadAsked};
ghost use Rattle.apei_script.specs.Plays.{IsPlayable};
ghost use Rattle.apei_script.specs.Sessions.{state_of, CommandPlayed, ReadPlayed, AnswersWrite, AnswersClear, AnswersCount, AnswersNext};

use crate::commands::READ_BUFFER;
use crate::session::Session;
use erst_client::{Client, ClientError};
use erst_interp::Budget;
use erst_machine::Machine;
use flash_model::Flash;

impl<F: Flash> Session<F> {
    /// The steps that a line is given.
    pub fn budget(&self) -> u64
        ensures { result ≡ budget_of (state_of self.now) }
    {
        match &self.other {
            Some(client) => self.steps.unwrap_or(client.enough()),
            None => self.steps.unwrap_or(self.own.enough()),
        }
    }

    /// Writes an error record.
    pub fn write(&mut self, bytes: &[u8]) -> Result<(), ClientError>
        requires playable { IsPlayable (write (encode_lower bytes.now)) }
        ensures played { CommandPlayed F.tells (state_of self.old) (write (encode_lower bytes.now)) (state_of self.new)
            (words_of_write bytes.now result) }
        ensures answers { AnswersWrite F.tells (state_of self.old) bytes.now result (state_of self.new) }
    {
        self.machine.stands();
        let steps = self.budget();
        match &mut self.other {
            Some(client) => client.write(bytes, &mut Budget::new(steps), &mut self.machine),
            None => self
                .own
                .write(bytes, &mut Budget::new(steps), &mut self.machine),
        }
    }

    /// Reads the record of an identifier, and answers how many bytes it has.
    pub fn read(&mut self, id: u64) -> Result<usize, ClientError>
        ensures { ReadPlayed F.tells (state_of self.old) id result (state_of self.new) }
    {
        self.machine.stands();
        let steps = self.budget();
        match &mut self.other {
            Some(client) => read_by(
                client,
                &mut self.machine,
                steps,
                id,
                &mut self.buffers.bytes,
            ),
            None => read_by(
                &mut self.own,
                &mut self.machine,
                steps,
                id,
                &mut self.buffers.bytes,
            ),
        }
    }

    /// Clears the record of an identifier.
    pub fn clear(&mut self, id: u64) -> Result<(), ClientError>
        ensures played { CommandPlayed F.tells (state_of self.old) (clear id) (state_of self.new)
            (words_of_clear id result) }
        ensures answers { AnswersClear F.tells (state_of self.old) id result (state_of self.new) }
    {
        self.machine.stands();
        let steps = self.budget();
        match &mut self.other {
            Some(client) => client.clear(id, &mut Budget::new(steps), &mut self.machine),
            None => self
                .own
                .clear(id, &mut Budget::new(steps), &mut self.machine),
        }
    }

    /// Asks how many records are stored.
    pub fn count(&mut self) -> Result<u64, ClientError>
        ensures played { CommandPlayed F.tells (state_of self.old) count (state_of self.new) (words_of_count result) }
        ensures answers { AnswersCount F.tells (state_of self.old) result (state_of self.new) }
    {
        self.machine.stands();
        let steps = self.budget();
        match &mut self.other {
            Some(client) => client.count(&mut Budget::new(steps), &mut self.machine),
            None => self.own.count(&mut Budget::new(steps), &mut self.machine),
        }
    }

    /// Asks for the next identifier, `None` where there is none.
    pub fn next(&mut self) -> Result<Option<u64>, ClientError>
        ensures played { CommandPlayed F.tells (state_of self.old) next (state_of self.new) (words_of_next result) }
        ensures answers { AnswersNext F.tells (state_of self.old) result (state_of self.new) }
    {
        self.machine.stands();
        let steps = self.budget();
        match &mut self.other {
            Some(client) => client.next(&mut Budget::new(steps), &mut self.machine),
            None => self.own.next(&mut Budget::new(steps), &mut self.machine),
        }
    }
}

/// Reads the record of an identifier by a client, into the first bytes of some.
fn read_by<F: Flash>(
    client: &mut Client,
    machine: &mut Machine<F>,
    steps: u64,
    id: u64,
    bytes: &mut [u8],
) -> Result<usize, ClientError>
    requires room { 65536 ≤ length bytes.old }
    ensures asked { ReadAsked F.tells (asker_of client.old steps) machine.old id result machine.new }
    ensures kept { client.new ≡ client.old }
    ensures size { length bytes.new ≡ length bytes.old }
{
    client.read(
        id,
        &mut bytes[..READ_BUFFER],
        &mut Budget::new(steps),
        machine,
    )
}
