// Guesses at the window that holds an address.
ghost use Rattle.std.specs.Prelude.{◌≡◌, ◌/◌, ◌^◌, ◌<◌, length, replicate, IfOk};
ghost use Rattle.apei_space.specs.Guesses.{guessed, keys, no_guess, put, shift, slot, window_noted};

use apei_bytes::OutOfMemory;
use std::alloc::Global;

/// The slots of all guesses, as many as 8 bits can number.
const SLOTS: usize = 256;

/// The bits of an address within a word of 8 bytes, and within a page of 4,096.
const WORD: u32 = 3;

const PAGE: u32 = 12;

/// Longer windows are noted by their pages, the others by their words.
pub const SHORT: u32 = 512;

/// So many words or pages of a window behind its first are noted at most.
const FURTHER: u32 = 63;

/// The numbers of two windows.
#[derive(Clone, Copy)]
pub struct Guess {
    pub first: usize,
    pub second: usize,
}

const NO_GUESS: Guess = Guess {
    first: 0,
    second: 0,
};

/// Guesses at the window of an address by its word and by its page. They tell nothing for sure: who asks looks whether the window
/// is the right one.
#[derive(Drop)]
pub struct Guesses {
    slots: Vec<Guess>,
}

/// The slot of a word or a page: the highest 8 bits of its product with the golden ratio, which keeps apart what stands in equal steps.
fn slot(key: u64) -> usize
    ensures value { result ≡ slot key }
    ensures inside { result < 256 }
{
    (key.wrapping_mul(0x9E37_79B9_7F4A_7C15) >> 56) as usize
}

/// The bits of an address within the words or pages of a window of so many bytes.
fn shift_of(len: u32) -> u32
    ensures { result ≡ shift len }
{
    if len <= SHORT { WORD } else { PAGE }
}

/// How many words or pages of a window of so many bytes are noted.
fn keys_of(len: u32) -> u32
    ensures { result ≡ keys len }
{
    (len.saturating_sub(1) >> shift_of(len)).min(FURTHER) + 1
}

impl Guesses {
    pub fn new(alloc: Global) -> Result<Guesses, OutOfMemory>
        ensures { IfOk result (λ guesses. guesses.slots.items ≡ replicate 256 no_guess) }
    {
        let slots = vec![in alloc; NO_GUESS; SLOTS]?;
        Ok(Guesses { slots })
    }

    /// Notes the number of a window of so many bytes. Where three windows have one slot, the first of them is forgotten.
    pub fn note(&mut self, address: u64, len: u32, number: usize)
        requires { length self.old.slots.items ≡ 256 }
        ensures slots { self.new.slots.items ≡ window_noted address len number self.old.slots.items }
        ensures length { length self.new.slots.items ≡ 256 }
    {
        let first = address >> shift_of(len);
        for step in 0..keys_of(len) {
            self.put(first.wrapping_add(u64::from(step)), number);
        }
    }

    fn put(&mut self, key: u64, number: usize)
        requires { length self.old.slots.items ≡ 256 }
        ensures slots { self.new.slots.items ≡ put number self.old.slots.items key }
        ensures length { length self.new.slots.items ≡ 256 }
    {
        let slot = slot(key);
        let second = self.slots[slot].first;
        self.slots[slot] = Guess {
            first: number,
            second,
        };
    }

    #[inline(always)]
    fn at(&self, key: u64) -> Guess
        ensures { result ≡ guessed self.now.slots.items key }
    {
        self.slots.get(slot(key)).copied().unwrap_or(NO_GUESS)
    }

    /// The windows that may hold the word of an address.
    #[inline(always)]
    pub fn by_word(&self, address: u64) -> Guess
        ensures { result ≡ guessed self.now.slots.items (address / 2 ^ 3) }
    {
        self.at(address >> WORD)
    }

    /// The windows that may hold the page of an address.
    #[inline(always)]
    pub fn by_page(&self, address: u64) -> Guess
        ensures { result ≡ guessed self.now.slots.items (address / 2 ^ 12) }
    {
        self.at(address >> PAGE)
    }
}
