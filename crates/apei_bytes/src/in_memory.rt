// A source and a sink that are held in memory, and fail where they are told to.
ghost use Rattle.std.specs.Prelude.{◌≡◌, ◌⊎◌, ◌↔◌, ℕ, ◌+◌, ◌-◌, ◌^◌, ◌<◌, ◌≤◌, List, [], ◌++◌, length, take, drop, min, is_ok, if◌then◌else◌, IfOk, OnOk, MatchResult, IsErr, Contains};
ghost use Rattle.base_model.specs.Faults.{HasCause, Rose};
ghost use Rattle.apei_bytes.specs.Streams.{BytesToRead, BytesWritten};
ghost use Rattle.base_model.specs.Flash.{next_count};

use super::streams::{ReadFailed, Sink, Source, WriteFailed};
use std::alloc::Global;
use std::marker::Model;

/// Bytes that are read in pieces of a given length; the reads with given numbers fail.
#[derive(Drop)]
pub struct MemSource {
    bytes: Vec<u8>,
    taken: usize,
    piece: usize,
    failing: Vec<u64>,
    reads: u64,
    faults: u64,
}

impl Model for MemSource {
    ghost use Rattle.std.specs.Prelude.{◌<◌, ◌≤◌, ◌^◌, drop, length};
    ghost use Rattle.apei_bytes.specs.Streams.{BytesToRead};

    ghost Value = { BytesToRead };

    ghost view = { λ s. record { rest = drop s.taken s.bytes.items; piece = s.piece; failing = s.failing.items; reads = s.reads; faults = s.faults } };

    ghost invariant = { λ s. (s.taken ≤ length s.bytes.items) × (0 < s.piece) };
}

impl MemSource {
    /// A source of these bytes that gives at most `piece` of them at a time. The reads numbered in `failing`, from 0,
    /// fail.
    pub fn new(bytes: Vec<u8>, piece: usize, failing: Vec<u64>) -> MemSource
        requires { 0 < piece }
        ensures state { result ≡ record {
          rest = bytes.items;
          piece = piece;
          failing = failing.items;
          reads = 0;
          faults = 0;
        } }
        ensures told { ⟦<MemSource as Source>⟧.tells }
    {
        MemSource {
            bytes,
            taken: 0,
            piece,
            failing,
            reads: 0,
            faults: 0,
        }
    }
}

impl Source for MemSource {
    ghost tells = { Unit {0} };

    ghost rest = { λ s. s.rest };

    ghost faults = { λ s. s.faults };

    fn read(&mut self, buf: &mut [u8]) -> Result<usize, ReadFailed>
        requires { 0 < length buf.old }
        ensures fails { IsErr result ↔ Contains self.old.failing self.old.reads }
        ensures gives { IfOk result (λ n. n ≡ min (min self.old.piece (length buf.old)) (length self.old.rest)) }
        ensures reads { self.new.reads ≡ next_count self.old.reads }
        ensures faults { self.new.faults ≡ (if is_ok result then self.old.faults else next_count self.old.faults) }
        ensures settings { (self.new.piece ≡ self.old.piece) × (self.new.failing ≡ self.old.failing) }

        // What every source promises.
        ensures count { IfOk result (λ n. n ≤ length buf.new) }
        ensures bytes { MatchResult result (λ n. self.old.rest ≡ take n buf.new ++ self.new.rest)
            (λ _. self.new.rest ≡ self.old.rest) }
        ensures end { result ≡ Ok 0 → self.old.rest ≡ [] }
        ensures cause { HasCause self.old.faults self.new.faults result }
    {
        let number = self.reads;
        self.reads = number.saturating_add(1);
        if self.failing.contains(&number) {
            self.faults = self.faults.saturating_add(1);
            return Err(ReadFailed);
        }
        let start = self.taken;
        let count = self.piece.min(buf.len()).min(self.bytes.len() - start);
        buf[..count].copy_from_slice(&self.bytes[start..start + count]);
        self.taken = start + count;
        Ok(count)
    }
}

/// Bytes that were written; the writes with given numbers fail, and those that find no memory.
#[derive(Drop)]
pub struct MemSink {
    bytes: Vec<u8>,
    failing: Vec<u64>,
    writes: u64,
    faults: u64,
    starved: u64,
}

impl Model for MemSink {
    ghost use Rattle.apei_bytes.specs.Streams.{BytesWritten};

    ghost Value = { BytesWritten };

    ghost view = { λ s. record { written = s.bytes.items; failing = s.failing.items; writes = s.writes; faults = s.faults; starved = s.starved } };
}

impl MemSink {
    /// An empty sink. The writes numbered in `failing`, from 0, fail.
    pub fn new(alloc: Global, failing: Vec<u64>) -> MemSink
        ensures state { result ≡ record { written = []; failing = failing.items; writes = 0; faults = 0; starved = 0 } }
        ensures told { ⟦<MemSink as Sink>⟧.tells }
    {
        MemSink {
            bytes: Vec::new(alloc),
            failing,
            writes: 0,
            faults: 0,
            starved: 0,
        }
    }

    /// What was written so far.
    pub fn bytes(&self) -> &[u8]
        ensures { result.now ≡ self.now.written }
    {
        self.bytes.as_slice()
    }

    /// How many writes found no memory.
    pub fn starved(&self) -> u64
        ensures { result ≡ self.now.starved }
    {
        self.starved
    }
}

impl Sink for MemSink {
    ghost tells = { Unit {0} };

    ghost written = { λ s. s.written };

    ghost faults = { λ s. s.faults };

    fn write(&mut self, bytes: &[u8]) -> Result<usize, WriteFailed>
        requires { 0 < length bytes.now }
        ensures fails { IsErr result ↔ (Contains self.old.failing self.old.writes
            ⊎ Rose self.old.starved self.new.starved) }
        ensures all { IfOk result (λ n. n ≡ length bytes.now) }
        ensures writes { self.new.writes ≡ next_count self.old.writes }
        ensures faults { self.new.faults ≡ (if is_ok result then self.old.faults else next_count self.old.faults) }
        ensures starved { (self.new.starved ≡ self.old.starved) ⊎ (self.new.starved ≡ next_count self.old.starved) }
        ensures settings { self.new.failing ≡ self.old.failing }

        // What every sink promises.
        ensures some { IfOk result (λ n. 0 < n) }
        ensures count { IfOk result (λ n. n ≤ length bytes.now) }
        ensures bytes { MatchResult result (λ n. self.new.written ≡ self.old.written ++ take n bytes.now)
            (λ _. self.new.written ≡ self.old.written) }
        ensures cause { HasCause self.old.faults self.new.faults result }
    {
        let number = self.writes;
        self.writes = number.saturating_add(1);
        if self.failing.contains(&number) {
            self.faults = self.faults.saturating_add(1);
            return Err(WriteFailed);
        }
        // A count at its last value can't rise, so a write that it might have to count is refused.
        if self.starved == u64::MAX || self.bytes.extend_from_slice(bytes).is_err() {
            self.starved = self.starved.saturating_add(1);
            self.faults = self.faults.saturating_add(1);
            return Err(WriteFailed);
        }
        Ok(bytes.len())
    }
}
