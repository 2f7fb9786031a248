// What a line asks of the machine itself: error status blocks, memory, and the boot error region.
ghost use Rattle.std.specs.Prelude.{◌≡◌, ◌≤◌, ℕ, List, [], ◌∷◌, length};
ghost use Rattle.script_lines.specs.declared.lengths.TheConstants.{LONGEST_LINE};
ghost use Rattle.script_lines.specs.Parts.{IsPairs};
ghost use Rattle.script_text.specs.ScriptGrammar.{error, peek, fatal};
ghost use Rattle.apei_script.specs.Words.{words_of_submission, words_of_laid};
ghost use Rattle.apei_script.specs.Replies.{IsMade};
ghost use Rattle.apei_script.specs.Happened.{Happened};
ghost use Rattle.apei_script.specs.Sessions.{state_of, MakesReply};

use crate::machine_refusal::MachineRefusal;
use crate::refusals::{refuse, refuse_fatal};
use crate::reply::put_number;
use crate::session::Session;
use apei_space::Space;
use erst_machine::{FatalError, Machine};
use flash_model::Flash;
use ghes_ack::SubmitError;
use script_text::{Reply, decode_line};

impl<F: Flash> Session<F> {
    /// Gives an error status block to the handover.
    pub fn give_block(&mut self, hex: &[u8])
        requires pairs { IsPairs hex.now }
        requires fits { length hex.now ≤ LONGEST_LINE }
        ensures { MakesReply F.tells (state_of self.old) (error hex.now) (state_of self.new) self.new.buffers.reply }
    {
        let len = decode_line(hex, &mut self.buffers.bytes);
        let answer = self.machine.submit(&self.buffers.bytes[..len]);
        put_submission(&mut self.buffers.reply, answer);
    }

    /// Lays a fatal block into the boot error region.
    pub fn lay_block(&mut self, hex: &[u8])
        requires pairs { IsPairs hex.now }
        requires fits { length hex.now ≤ LONGEST_LINE }
        ensures { MakesReply F.tells (state_of self.old) (fatal hex.now) (state_of self.new) self.new.buffers.reply }
    {
        let len = decode_line(hex, &mut self.buffers.bytes);
        let answer = self.machine.lay_fatal(&self.buffers.bytes[..len]);
        put_laid(&mut self.buffers.reply, answer);
    }

    /// Shows bytes of the machine's memory.
    pub fn show_bytes(&mut self, at: u64, len: u64)
        requires { len ≤ 4096 }
        ensures { MakesReply F.tells (state_of self.old) (peek at len) (state_of self.new) self.new.buffers.reply }
    {
        make_bytes(
            &mut self.machine,
            at,
            len,
            &mut self.buffers.bytes,
            &mut self.buffers.reply,
        );
    }
}

/// The reply to a block that is given to the handover.
fn put_submission(reply: &mut Reply, answer: Result<u32, SubmitError>)
    ensures { IsMade reply.new (words_of_submission answer) }
{
    match answer {
        Ok(waiting) => put_number(reply, b"queued ", u64::from(waiting)),
        Err(error) => refuse(reply, &error),
    }
}

/// The reply to a fatal block.
fn put_laid(reply: &mut Reply, answer: Result<u32, FatalError>)
    ensures { IsMade reply.new (words_of_laid answer) }
{
    match answer {
        Ok(at) => put_number(reply, b"laid ", u64::from(at)),
        Err(error) => refuse_fatal(reply, error),
    }
}

/// The reply that shows bytes of a machine's memory.
fn make_bytes<F: Flash>(
    machine: &mut Machine<F>,
    at: u64,
    len: u64,
    bytes: &mut [u8],
    reply: &mut Reply,
)
    requires few { len ≤ 4096 }
    requires room { 4096 ≤ length bytes.old }
    ensures made { (words : List ℕ) × Happened F.tells machine.old (peek at len) (words ∷ []) [] machine.new
        × IsMade reply.new words }
    ensures size { length bytes.new ≡ length bytes.old }
{
    let out = &mut bytes[..len as usize];
    match machine.read_bytes(at, out) {
        Ok(()) => {
            reply.begin(b"bytes ");
            reply.add_hex(out);
        }
        Err(fault) => refuse(reply, &MachineRefusal::Space(fault)),
    }
}
