// The entries of one action, in table order.
ghost use Rattle.std.specs.Prelude.{◌≡◌, ◌^◌, ◌<◌, ◌≤◌, ◌↔◌, IsTrue, Some, slice_get, length, drop, count_by};
ghost use Rattle.erst_entries.specs.Programs.{program_of, entries_of};

use crate::entries::Entry;
use std::marker::Model;

/// The program of an action: those entries of a table that have the action, in table order. It borrows the table.
#[derive(Drop)]
pub struct Program<'a> {
    /// What stands from the action's first entry on, or its entries alone where they adjoin.
    span: &'a [Entry],
    action: u8,
    len: usize,
}

impl<'a> Model for Program<'a> {
    ghost use Rattle.std.specs.Prelude.{◌≡◌, length};
    ghost use Rattle.erst_entries.specs.Programs.{Listed, entries_of};

    ghost Value = { Listed };

    ghost view = { λ p. record { action = p.action; entries = entries_of p.action p.span.now } };

    ghost invariant = { λ p. length (entries_of p.action p.span.now) ≡ p.len };
}

impl<'a> Program<'a> {
    /// The program of `action` among these entries.
    pub fn of(entries: &'a [Entry], action: u8) -> Program<'a>
        ensures { result ≡ program_of action entries.now }
    {
        let rest = &entries[skipped(entries, action)..];
        let len = count_of(rest, action);
        let span = adjoined(rest, action, len);
        Program { span, action, len }
    }

    /// The program whose entries are these alone.
    pub(crate) fn alone(entries: &'a [Entry], action: u8) -> Program<'a>
        requires { entries_of action entries.now ≡ entries.now }
        ensures { result ≡ record { action = action; entries = entries.now } }
    {
        Program {
            span: entries,
            action,
            len: entries.len(),
        }
    }

    /// The action that it carries out.
    pub fn action(&self) -> u8
        ensures { result ≡ self.now.action }
    {
        self.action
    }

    /// How many entries it has.
    pub fn len(&self) -> usize
        ensures count { result ≡ length self.now.entries }
        ensures bound { result < 2 ^ 63 }
    {
        self.len
    }

    /// Whether it has no entry.
    pub fn is_empty(&self) -> bool
        ensures { IsTrue result ↔ (length self.now.entries ≡ 0) }
    {
        self.len == 0
    }

    /// An entry by its place in the program.
    pub fn entry(&self, index: usize) -> Entry
        requires { index < length self.now.entries }
        ensures { slice_get self.now.entries index ≡ Some result }
    {
        if self.len == self.span.len() {
            self.span[index]
        } else {
            nth(self.span, self.action, index)
        }
    }
}

/// How many entries stand before the action's first one.
fn skipped(entries: &[Entry], action: u8) -> usize
    ensures within { result ≤ length entries.now }
    ensures others { entries_of action (drop result entries.now) ≡ entries_of action entries.now }
{
    for (index, entry) in entries.iter().enumerate() {
        if entry.action == action {
            return index;
        }
    }
    entries.len()
}

/// How many entries have the action.
#[tactic(auto, using(crate::proofs::Listing::length_entries_of))]
fn count_of(entries: &[Entry], action: u8) -> usize
    ensures count { result ≡ length (entries_of action entries.now) }
    ensures within { result ≤ length entries.now }
{
    entries
        .iter()
        .filter(|entry| entry.action == action)
        .count()
}

/// The entries of the action alone where they are the first `len`, else all.
fn adjoined<'a>(rest: &'a [Entry], action: u8, len: usize) -> &'a [Entry]
    requires within { len ≤ length rest.now }
    requires count { len ≡ length (entries_of action rest.now) }
    ensures { entries_of action result.now ≡ entries_of action rest.now }
{
    let front = &rest[..len];
    if count_of(front, action) == len {
        return front;
    }
    rest
}

/// The entry of the action behind `index` others of it.
fn nth(entries: &[Entry], action: u8, index: usize) -> Entry
    requires { index < length (entries_of action entries.now) }
    ensures { slice_get (entries_of action entries.now) index ≡ Some result }
{
    let mut left = index;
    for entry in entries {
        if entry.action == action {
            if left == 0 {
                return *entry;
            }
            left -= 1;
        }
    }
    unreachable!()
}
