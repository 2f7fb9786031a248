// A status block in bytes.
ghost use Rattle.std.specs.Prelude.{◌≡◌, ℕ, ◌+◌, ◌-◌, ◌^◌, ◌<◌, ◌≤◌, ◌++◌, List, [], length, take, Ok, Err, IfOk, IfSome, IsOkAnd, MatchResult, MatchOption};
ghost use Rattle.base_model.specs.Bytes.{part};
ghost use Rattle.ghes_block.specs.Grammar.{BlockValue, IsBlock};
ghost use Rattle.ghes_block.specs.Reading.{checked, whole_entry_size, length_if_there, entry_count, entry_walk};
ghost use Rattle.ghes_block.specs.Entries.{value_of, place_of, HasHead, IsPlace, EntryAt, RestAt};
ghost use Rattle.apei_bytes.specs.Walk.{item_count};

use crate::entry::{DataEntry, HEAD, size_of_entry};
use crate::error::BlockError;
use apei_bytes::{bytes_at, get_u32};
use std::marker::Model;

/// The bytes of a block's head.
pub(crate) const HEADER: usize = 20;

/// A block, as a part of the bytes that it was read from.
#[derive(Drop)]
pub struct Block<'a> {
    bytes: &'a [u8],
    entries: u32,
}

impl<'a> Model for Block<'a> {
    ghost use Rattle.ghes_block.specs.Grammar.{BlockValue};

    ghost Value = { BlockValue };

    ghost use Rattle.ghes_block.specs.Reading.{block_of, IsReadBlock};

    ghost view = { λ b. block_of b.bytes.now };

    ghost invariant = { λ b. IsReadBlock b.bytes.now b.entries };
}

/// The length of the entry that stands first, which has this index and place in its block.
#[tactic(auto, using(std::proofs::lemmas::Bool::Decides::nat_tests), unfolding(crate::specs::Reading::whole_entry_size))]
fn whole_entry_size(rest: &[u8], index: u32, at: usize) -> Result<usize, BlockError>
    ensures exact { result ≡ whole_entry_size index at rest.now }
    ensures within { IfOk result (λ size. (64 ≤ size) × (size ≤ length rest.now)) }
{
    if rest.len() < HEAD {
        return Err(BlockError::Rest {
            bytes: rest.len() as u64,
        });
    }
    let size = size_of_entry(rest);
    if rest.len() < size {
        return Err(BlockError::Entry {
            index: u64::from(index),
            at: at as u64,
        });
    }
    Ok(size)
}

/// How many entries there are in a block's data.
fn count_entries(content: &[u8]) -> Result<u32, BlockError>
    requires { length content.now < 2 ^ 32 }
    ensures { result ≡ item_count entry_walk (length content.now) 0 20 content.now }
{
    let mut at = 0;
    let mut index: u32 = 0;
    while at < content.len() {
        at += whole_entry_size(&content[at..], index, HEADER + at)?;
        index += 1;
    }
    Ok(index)
}

/// The length, where so many bytes are there, and the number of entries.
fn sized_block(bytes: &[u8], size: u64, data_length: u32) -> Result<(usize, u32), BlockError>
    requires { 20 + data_length ≤ size }
    ensures { let content = part bytes.now 20 data_length
        in let count = item_count entry_walk (length content) 0 20 content
        in MatchResult result (λ x. (length_if_there (length bytes.now) size count ≡ Ok x.0) × (count ≡ Ok x.1))
        (λ e. length_if_there (length bytes.now) size count ≡ Err e) }
{
    let have = bytes.len() as u64;
    if have < size {
        return Err(BlockError::Need { more: size - have });
    }
    let count = count_entries(bytes_at(bytes, HEADER, data_length as usize))?;
    Ok((size as usize, count))
}

/// The length of the block that the bytes begin with, and the number of its entries.
fn checked_block(bytes: &[u8]) -> Result<(usize, u32), BlockError>
    ensures { MatchResult result (λ x. (checked bytes.now ≡ Ok x.0) × (entry_count bytes.now ≡ Ok x.1))
        (λ e. checked bytes.now ≡ Err e) }
{
    if bytes.len() < HEADER {
        return Err(BlockError::Need {
            more: (HEADER - bytes.len()) as u64,
        });
    }
    if get_u32(bytes, 0) == 0 {
        return Err(BlockError::NotPublished);
    }
    let raw_offset = get_u32(bytes, 4);
    let raw_length = get_u32(bytes, 8);
    let data_length = get_u32(bytes, 12);
    let data_end = 20 + u64::from(data_length);
    if raw_length == 0 {
        return sized_block(bytes, data_end, data_length);
    }
    if u64::from(raw_offset) < data_end {
        return Err(BlockError::RawOffset {
            found: u64::from(raw_offset),
        });
    }
    sized_block(
        bytes,
        u64::from(raw_offset) + u64::from(raw_length),
        data_length,
    )
}

impl<'a> Block<'a> {
    /// Reads the block at the front of the bytes, and says how many bytes it has. More bytes may follow. The entries are
    /// those of the data length, whatever the status says of their number.
    pub fn decode(bytes: &'a [u8]) -> Result<(Block<'a>, usize), BlockError>
        // What is found is a block.
        ensures found { IfOk result (λ x. (x.1 ≤ length bytes.now) × IsBlock x.0 (take x.1 bytes.now)) }
        // What is a block is found.
        ensures only { (value : BlockValue) (n : ℕ) → n ≤ length bytes.now → IsBlock value (take n bytes.now)
            → IsOkAnd result (λ x. (x.0 ≡ value) × (x.1 ≡ n)) }
        // The error is the first check that fails.
        ensures exact { MatchResult result (λ x. checked bytes.now ≡ Ok x.1) (λ e. checked bytes.now ≡ Err e) }
        // It has a head of 20 bytes, with a status other than 0.
        ensures head { IfOk result (λ x. HasHead bytes.now x.0 x.1) }
        // The first entry, or the end, is at 20.
        ensures first { IfOk result (λ x. IsPlace x.0.entries 20) }
    {
        let (length, entries) = checked_block(bytes)?;
        let block = Block {
            bytes: &bytes[..length],
            entries,
        };
        Ok((block, length))
    }

    /// The whole block status. Bits 4 to 13 claim a number of entries, which may differ from `entries`.
    pub fn status(&self) -> u32
        ensures { result ≡ self.now.status }
    {
        get_u32(self.bytes, 0)
    }

    /// 0 recoverable, 1 fatal, 2 corrected, 3 none.
    pub fn severity(&self) -> u32
        ensures { result ≡ self.now.severity }
    {
        get_u32(self.bytes, 16)
    }

    /// How many bytes it has.
    pub fn len(&self) -> u64
        ensures { result ≡ self.now.size }
    {
        self.bytes.len() as u64
    }

    /// How many entries it has.
    pub fn entries(&self) -> u32
        ensures { result ≡ length self.now.entries }
    {
        let _ = self.bytes;
        self.entries
    }

    /// Its raw data.
    pub fn raw(&self) -> &'a [u8]
        ensures { result.now ≡ self.now.raw }
    {
        let raw_length = get_u32(self.bytes, 8);
        if raw_length == 0 {
            return bytes_at(self.bytes, 0, 0);
        }
        bytes_at(
            self.bytes,
            get_u32(self.bytes, 4) as usize,
            raw_length as usize,
        )
    }

    /// What stands between a place and the entries' end.
    fn rest_at(&self, at: u64) -> &'a [u8]
        requires { IsPlace self.now.entries at }
        ensures rest { RestAt self.now.entries at result.now }
        ensures within { at + length result.now ≤ self.now.size }
    {
        let end = 20 + u64::from(get_u32(self.bytes, 12));
        bytes_at(self.bytes, at as usize, (end - at) as usize)
    }

    /// The entry that begins at `at`, and the place of the next one; `None` at the end. `at` is 20 or was answered by
    /// this call.
    pub fn entry_at(&self, at: u64) -> Option<(DataEntry<'a>, u64)>
        requires { IsPlace self.now.entries at }
        ensures found { MatchOption result (at ≡ place_of self.now.entries (length self.now.entries))
            (λ x. EntryAt self.now.entries at x.1 (value_of x.0)) }
        ensures next { IfSome result (λ x. IsPlace self.now.entries x.1) }
        // The next place is further on, within the block.
        ensures on { IfSome result (λ x. (at + 64 ≤ x.1) × (x.1 ≤ self.now.size)) }
    {
        let rest = self.rest_at(at);
        if rest.is_empty() {
            return None;
        }
        let (entry, size) = DataEntry::read(rest);
        Some((entry, at + size))
    }
}

/// No block begins another, so where a block ends doesn't depend on what follows it.
pub fn one_end()
    ensures { (value other : BlockValue) (bytes more : List ℕ) → IsBlock value bytes → IsBlock other (bytes ++ more)
        → more ≡ [] }
{}
