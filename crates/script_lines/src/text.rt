// A text of words and numbers.
ghost use Rattle.std.specs.Prelude.{◌≡◌, ◌+◌, ◌≤◌, [], ◌++◌, length, decimal, codes};

use itoa::Buffer;
use std::marker::Model;

// The most bytes that a text has.
const CAPACITY: usize = 256;

/// Up to 256 bytes of text.
#[derive(Drop)]
pub struct LineText {
    bytes: [u8; CAPACITY],
    len: usize,
}

impl Model for LineText {
    ghost use Rattle.std.specs.Prelude.{ℕ, List, ◌≤◌, take};

    ghost Value = { List ℕ };

    ghost view = { λ t. take t.len t.bytes };

    ghost invariant = { λ t. t.len ≤ 256 };
}

impl LineText {
    /// No text.
    pub fn new() -> LineText
        ensures { result ≡ [] }
    {
        LineText {
            bytes: [0; CAPACITY],
            len: 0,
        }
    }

    /// The bytes of the text.
    pub fn bytes(&self) -> &[u8]
        ensures { result.now ≡ self.now }
    {
        &self.bytes[..self.len]
    }

    /// Appends a word.
    pub fn add(&mut self, word: &[u8])
        requires { length self.old + length word.now ≤ 256 }
        ensures { self.new ≡ self.old ++ word.now }
    {
        self.bytes[self.len..self.len + word.len()].copy_from_slice(word);
        self.len += word.len();
    }

    /// Appends a number in decimal digits.
    pub fn add_number(&mut self, n: u64)
        requires { length self.old ≤ 236 }
        ensures text { self.new ≡ self.old ++ decimal n }
        ensures short { length self.new ≤ length self.old + 20 }
    {
        self.add(Buffer::new().format(n).as_bytes());
    }

    /// Appends a word and a number.
    pub fn add_one(&mut self, word: &[u8], n: u64)
        requires { length self.old + length word.now ≤ 236 }
        ensures text { self.new ≡ self.old ++ (word.now ++ decimal n) }
        ensures short { length self.new ≤ length self.old + length word.now + 20 }
    {
        self.add(word);
        self.add_number(n);
    }

    /// Appends a word and a number of one byte, which has three digits at most.
    pub fn add_byte(&mut self, word: &[u8], n: u8)
        requires { length self.old + length word.now ≤ 253 }
        ensures text { self.new ≡ self.old ++ (word.now ++ decimal n) }
        ensures short { length self.new ≤ length self.old + length word.now + 3 }
    {
        self.add(word);
        self.add(Buffer::new().format(n).as_bytes());
    }

    /// Appends a word and two numbers.
    pub fn add_two(&mut self, word: &[u8], m: u64, n: u64)
        requires { length self.old + length word.now ≤ 215 }
        ensures text { self.new ≡ self.old ++ (word.now ++ decimal m ++ codes " " ++ decimal n) }
        ensures short { length self.new ≤ length self.old + length word.now + 41 }
    {
        self.add_one(word, m);
        self.add_one(b" ", n);
    }
}
