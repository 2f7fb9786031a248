// A stretch of plain bytes, and where an access stands in one.
ghost use Rattle.std.specs.Prelude.{◌≡◌, ◌+◌, ◌<◌, ◌≤◌, ◌^◌, ◌-◌, All, length, IfOk, IfSome};
ghost use Rattle.apei_space.specs.Windows.{address_of, room, room_in, location, total, AreApart};
ghost use Rattle.apei_space.specs.Stretches.{IsStretch, IsTable, IsTabulated, Tells, location_guessed, location_numbered};
ghost use Rattle.apei_space.specs.Guesses.{all_noted, guesses_at};

use crate::guesses::{Guess, Guesses, SHORT};
use apei_bytes::OutOfMemory;
use apei_tables::Place;
use std::alloc::Global;

/// So many plain bytes from a place on.
#[derive(Clone, Copy, Debug, PartialEq, Eq)]
pub struct Window {
    pub place: Place,
    pub len: u32,
}

impl Window {
    /// How many bytes it holds from a place on, 0 where the place isn't in it.
    fn room(&self, at: Place) -> u32
        ensures { result ≡ room self.now at }
    {
        match (self.place, at) {
            (Place::Memory(base), Place::Memory(at)) => room_in(base, self.len, at),
            (Place::Io(base), Place::Io(at)) => room_in(base, self.len, at),
            _ => 0,
        }
    }
}

/// How many of the `len` bytes from `base` on stand at `at` or behind it, 0 where `at` is none of them.
fn room_in(base: u64, len: u32, at: u64) -> u32
    ensures { result ≡ room_in base len at }
{
    if at < base || at - base >= u64::from(len) {
        return 0;
    }
    len - (at - base) as u32
}

/// The address of a place.
pub fn address(at: Place) -> u64
    ensures { result ≡ address_of at }
{
    match at {
        Place::Memory(address) | Place::Io(address) => address,
    }
}

/// Where the byte of a place stands among the bytes of all windows, and how many its window holds from there on.
#[inline(always)]
fn location(windows: &[Window], at: Place) -> Option<(usize, u32)>
    requires { total windows.now < 2 ^ 63 }
    ensures { result ≡ location windows.now 0 at }
{
    let mut start: usize = 0;
    for window in windows {
        let room = window.room(at);
        if room > 0 {
            return Some((start + (window.len - room) as usize, room));
        }
        start += window.len as usize;
    }
    None
}

/// A window, and where its first byte stands among the bytes of all windows.
#[derive(Clone, Copy)]
pub struct Stretch {
    window: Window,
    start: usize,
}

/// Windows in the order of their addresses, and guesses which of them holds an address.
#[derive(Drop)]
pub struct Table {
    stretches: Vec<Stretch>,
    guesses: Guesses,
}

/// The table of some windows.
pub fn tabulate(alloc: Global, windows: &[Window]) -> Result<Table, OutOfMemory>
    requires { total windows.now < 2 ^ 63 }
    ensures are { IfOk result (λ table. All (IsStretch windows.now) table.stretches.items) }
    ensures whole { IfOk result (λ table. IsTabulated windows.now table.stretches.items) }
    ensures guesses { IfOk result (λ table. table.guesses.slots.items ≡ guesses_at table.stretches.items) }
{
    let stretches = stretches(alloc, windows)?;
    let guesses = guesses(alloc, &stretches)?;
    Ok(Table { stretches, guesses })
}

/// The windows in the order of their addresses.
fn stretches(alloc: Global, windows: &[Window]) -> Result<Vec<Stretch>, OutOfMemory>
    requires { total windows.now < 2 ^ 63 }
    ensures are { IfOk result (λ table. All (IsStretch windows.now) table.items) }
    ensures whole { IfOk result (λ table. IsTabulated windows.now table.items) }
{
    let mut table = Vec::with_capacity(alloc, windows.len())?;
    let mut start: usize = 0;
    for window in windows {
        table.push_reserved(Stretch {
            window: *window,
            start,
        });
        start += window.len as usize;
    }
    table.sort_by_key(|stretch| address(stretch.window.place))?;
    Ok(table)
}

fn guesses(alloc: Global, stretches: &[Stretch]) -> Result<Guesses, OutOfMemory>
    ensures { IfOk result (λ guesses. guesses.slots.items ≡ guesses_at stretches.now) }
{
    let mut guesses = Guesses::new(alloc)?;
    // The short ones last, since these are found first where two have one slot.
    note_windows(&mut guesses, stretches, false);
    note_windows(&mut guesses, stretches, true);
    Ok(guesses)
}

/// Notes the short windows, or the others.
fn note_windows(guesses: &mut Guesses, stretches: &[Stretch], is_short: bool)
    requires { length guesses.old.slots.items ≡ 256 }
    ensures slots { guesses.new.slots.items ≡ all_noted is_short stretches.now 0 guesses.old.slots.items }
    ensures length { length guesses.new.slots.items ≡ 256 }
{
    for (number, stretch) in stretches.iter().enumerate() {
        let window = stretch.window;
        if (window.len <= SHORT) == is_short {
            guesses.note(address(window.place), window.len, number);
        }
    }
}

/// So many windows are looked at one by one as fast as by a search.
const FEW: usize = 4;

/// The same as `location`: few windows are looked at one by one.
#[inline(always)]
pub fn search(table: &Table, windows: &[Window], at: Place) -> Option<(usize, u32)>
    requires few { total windows.now < 2 ^ 63 }
    requires apart { AreApart windows.now }
    requires table { All (IsStretch windows.now) table.now.stretches.items }
    ensures { result ≡ location windows.now 0 at }
{
    if windows.len() > FEW {
        return search_many(table, windows, at);
    }
    location(windows, at)
}

/// The same by a guess, where one is right.
#[inline(never)]
fn search_many(table: &Table, windows: &[Window], at: Place) -> Option<(usize, u32)>
    requires few { total windows.now < 2 ^ 63 }
    requires apart { AreApart windows.now }
    requires table { All (IsStretch windows.now) table.now.stretches.items }
    ensures { result ≡ location windows.now 0 at }
{
    let stretches = table.stretches.as_slice();
    let first = address(at);
    if let Some(found) = location_guessed(stretches, table.guesses.by_word(first), at) {
        return Some(found);
    }
    if let Some(found) = location_guessed(stretches, table.guesses.by_page(first), at) {
        return Some(found);
    }
    search_in_order(stretches, windows, at)
}

/// Where the byte of a place stands, if one of two stretches holds it.
#[inline(always)]
fn location_guessed(stretches: &[Stretch], guess: Guess, at: Place) -> Option<(usize, u32)>
    requires { IsTable stretches.now }
    ensures value { result ≡ location_guessed stretches.now guess at }
    ensures right { Tells stretches.now at result }
{
    if let Some(found) = location_numbered(stretches, guess.first, at) {
        return Some(found);
    }
    location_numbered(stretches, guess.second, at)
}

/// Where the byte of a place stands, if the stretch of this number holds it.
#[inline(always)]
fn location_numbered(stretches: &[Stretch], number: usize, at: Place) -> Option<(usize, u32)>
    requires { IsTable stretches.now }
    ensures value { result ≡ location_numbered stretches.now number at }
    ensures right { Tells stretches.now at result }
{
    if number >= stretches.len() {
        return None;
    }
    let stretch = stretches[number];
    let room = stretch.window.room(at);
    if room > 0 {
        return Some((stretch.start + (stretch.window.len - room) as usize, room));
    }
    None
}

/// The same by a binary search in the order of the addresses. It misses only where memory and I/O are mixed up there.
#[inline(never)]
fn search_in_order(stretches: &[Stretch], windows: &[Window], at: Place) -> Option<(usize, u32)>
    requires few { total windows.now < 2 ^ 63 }
    requires apart { AreApart windows.now }
    requires table { All (IsStretch windows.now) stretches.now }
    ensures { result ≡ location windows.now 0 at }
{
    let first = address(at);
    let behind = stretches.partition_point(|stretch| address(stretch.window.place) <= first);
    if behind > 0 {
        if let Some(found) = location_numbered(stretches, behind - 1, at) {
            return Some(found);
        }
    }
    location(windows, at)
}
