// The text of a reply, made in memory that is taken once.
ghost use Rattle.std.specs.Prelude.{◌≡◌, ◌+◌, ◌*◌, ◌≤◌, [], ◌++◌, length, decimal, IfOk, OnOk, OnErr};
ghost use Rattle.base_model.specs.Faults.{HasCause};
ghost use Rattle.hex.specs.Hex.{encode_lower};
ghost use Rattle.script_text.specs.ReplyWords.{word_of};
ghost use Rattle.script_text.specs.Shown.{AreShown, IsPartWritten};

use apei_bytes::{OutOfMemory, Sink, SinkFault, write_all};
use ghes_ack::Event;
use hex::encode_to_slice;
use itoa::Buffer;
use std::alloc::Global;
use std::marker::Model;

/// The longest reply that is made whole shows a record of 65,536 bytes, two numbers, a step and less than forty bytes of words.
const LONGEST: usize = 131_264;

/// The most bytes of a reply in hand before one that is written in pieces goes on.
const FULL: usize = 16_384;

/// A reply.
#[derive(Drop)]
pub struct Reply {
    text: Vec<u8>,
}

impl Model for Reply {
    ghost use Rattle.std.specs.Prelude.{ℕ, List, ◌≤◌, length, vec_capacity};

    ghost Value = { List ℕ };

    ghost view = { λ r. r.text.items };

    ghost invariant = { λ r. (131264 ≤ vec_capacity r.text) × (length r.text.items ≤ 131264) };
}

impl Reply {
    /// An empty reply. It takes all the memory that it will have.
    pub fn new(alloc: Global) -> Result<Reply, OutOfMemory>
        ensures { IfOk result (λ reply. reply ≡ []) }
    {
        Ok(Reply {
            text: Vec::with_capacity(alloc, LONGEST)?,
        })
    }

    /// The text.
    pub fn text(&self) -> &[u8]
        ensures { result.now ≡ self.now }
    {
        self.text.as_slice()
    }

    /// Begins a reply by some words.
    pub fn begin(&mut self, words: &[u8])
        requires { length words.now ≤ 64 }
        ensures { self.new ≡ words.now }
    {
        self.text.clear();
        self.add(words);
    }

    pub fn add(&mut self, words: &[u8])
        requires { length self.old + length words.now ≤ 131264 }
        ensures { self.new ≡ self.old ++ words.now }
    {
        self.text.extend_from_slice(words).unwrap();
    }

    pub fn add_number(&mut self, n: u64)
        requires { length self.old + 20 ≤ 131264 }
        ensures text { self.new ≡ self.old ++ decimal n }
        ensures short { length self.new ≤ length self.old + 20 }
    {
        let mut buffer = Buffer::new();
        self.add(buffer.format(n).as_bytes());
    }

    pub fn add_hex(&mut self, bytes: &[u8])
        requires { length self.old + 2 * length bytes.now ≤ 131264 }
        ensures text { self.new ≡ self.old ++ encode_lower bytes.now }
        ensures longer { length self.new ≡ length self.old + 2 * length bytes.now }
    {
        let at = self.text.len();
        self.text.resize(at + 2 * bytes.len(), 0).unwrap();
        encode_to_slice(bytes, &mut self.text[at..]).unwrap();
    }

    /// Makes room for some more words: where there is little, those that there are are written.
    pub fn make_room<O: Sink>(&mut self, out: &mut O) -> Result<(), SinkFault>
        ensures room { OnOk result (length self.new ≤ 16384) }
        ensures shown { OnOk result (AreShown O.tells (O.written out.old) (O.written out.new) self.new self.old) }
        ensures part { OnErr result (O.tells → IsPartWritten self.old (O.written out.old) (O.written out.new)) }
        ensures kept { OnErr result (self.new ≡ self.old) }
        ensures waits { length self.old ≤ 16384 → (self.new ≡ self.old) × (out.new ≡ out.old) }
        ensures cause { HasCause (O.faults out.old) (O.faults out.new) result }
    {
        if self.text.len() > FULL {
            write_all(out, self.text.as_slice())?;
            self.text.clear();
        }
        Ok(())
    }
}

/// The word of an event.
pub fn word_of(event: Event) -> &'static [u8]
    ensures word { result.now ≡ word_of event }
    ensures short { length result.now ≤ 7 }
{
    match event {
        Event::Idle => b"idle",
        Event::Fill => b"fill",
        Event::Publish => b"publish",
        Event::Free => b"free",
        Event::Wait => b"wait",
        Event::Nothing => b"nothing",
        Event::Found => b"found",
        Event::Copied => b"copy",
        Event::Took => b"took",
        Event::Clear => b"clear",
        Event::Ack => b"ack",
    }
}
