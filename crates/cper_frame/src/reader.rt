// Records in a stream.
ghost use Rattle.std.specs.Prelude.{◌≡◌, ℕ, ◌+◌, ◌-◌, ◌≤◌, ◌<◌, ◌^◌, ◌++◌, List, [], length, take, Result, None, IfOk, IfSome};
ghost use Rattle.cper_frame.specs.Grammar.{IsRecord};
ghost use Rattle.std.specs.Prelude.{is_ok, vec_capacity};
ghost use Rattle.cper_frame.specs.Reading.{checked};
ghost use Rattle.cper_frame.specs.Stream.{feed_result, fill_result, frame_of, without_frame, GetsOn};

use crate::error::FrameError;
use crate::fed::Fed;
use crate::record::{HEADER, Record, checked_length};
use apei_bytes::OutOfMemory;
use std::alloc::Global;
use std::cmp::min;
use std::marker::Model;

/// Cuts a stream that comes in pieces into records, in memory that is reserved once.
#[derive(Drop)]
pub struct FrameReader {
    limit: u32,
    held: Vec<u8>,
    missing: usize,
    failed: Option<FrameError>,
}

impl Model for FrameReader {
    ghost use Rattle.std.specs.Prelude.{vec_capacity};
    ghost use Rattle.cper_frame.specs.Stream.{Reader, IsReader};

    ghost Value = { Reader };

    ghost view = { λ r. record { limit = r.limit; held = r.held.items; failed = r.failed } };

    ghost invariant = { λ r. IsReader r.limit r.held.items (vec_capacity r.held) r.missing };
}

/// Adds bytes for which there is memory.
fn add(held: &mut Vec<u8>, bytes: &[u8])
    requires { length held.old.items + length bytes.now ≤ vec_capacity held.old }
    ensures items { held.new.items ≡ held.old.items ++ bytes.now }
    ensures room { vec_capacity held.old ≤ vec_capacity held.new }
{
    let _ = held.extend_from_slice(bytes);
}

impl FrameReader {
    /// A reader of records of at most `limit` bytes.
    pub fn new(alloc: Global, limit: u32) -> Result<FrameReader, OutOfMemory>
        requires { 128 ≤ limit }
        ensures reader { IfOk result (λ r. r ≡ record { limit = limit; held = []; failed = None }) }
        ensures none { IfOk result (λ r. frame_of r ≡ None) }
    {
        let held = Vec::with_capacity(alloc, limit as usize)?;
        Ok(FrameReader {
            limit,
            held,
            missing: HEADER,
            failed: None,
        })
    }

    /// Takes a piece up to the end of one record. After an error it answers that error for good; it never answers
    /// `Need`.
    pub fn feed(&mut self, piece: &[u8]) -> Result<Fed, FrameError>
        ensures reader { self.new ≡ (feed_result self.old piece.now).0 }
        ensures answer { result ≡ (feed_result self.old piece.now).1 }
        ensures within { IfOk result (λ f. f.taken ≤ length piece.now) }
        // It gets on: without a whole record before, it takes some of a piece, and all of it where none is whole then.
        ensures on { IfOk result (GetsOn self.old self.new piece.now) }
    {
        match self.failed {
            Some(error) => Err(error),
            None => {
                let first = self.fill(piece)?;
                let second = self.fill(&piece[first..])?;
                Ok(Fed {
                    taken: first + second,
                    whole: self.is_whole(),
                })
            }
        }
    }

    /// Whether a record is whole.
    fn is_whole(&self) -> bool
        ensures { result ≡ is_ok (checked self.now.limit self.now.held) }
    {
        self.missing == 0
    }

    /// Takes a piece up to the end of the header, where it isn't whole yet, or else of the record.
    fn fill(&mut self, piece: &[u8]) -> Result<usize, FrameError>
        requires { self.old.failed ≡ None }
        ensures reader { self.new ≡ (fill_result self.old piece.now).0 }
        ensures answer { result ≡ (fill_result self.old piece.now).1 }
    {
        let count = min(self.missing, piece.len());
        if count == 0 {
            return Ok(0);
        }
        add(&mut self.held, &piece[..count]);
        self.missing -= count;
        if self.missing > 0 {
            return Ok(count);
        }
        match checked_length(self.held.as_slice(), self.limit) {
            Ok(_) => Ok(count),
            Err(FrameError::Need { more }) => {
                self.missing = more as usize;
                Ok(count)
            }
            Err(error) => {
                self.held.clear();
                self.missing = HEADER;
                self.failed = Some(error);
                Err(error)
            }
        }
    }

    /// The record that is whole.
    pub fn frame(&self) -> Option<Record<'_>>
        ensures found { result ≡ frame_of self.now }
        ensures record { IfSome result (λ r. IsRecord r self.now.held) }
    {
        if self.is_whole() {
            Some(Record::whole(self.held.as_slice()))
        } else {
            None
        }
    }

    /// The bytes of the record so far.
    pub fn bytes(&self) -> &[u8]
        ensures { result.now ≡ self.now.held }
    {
        self.held.as_slice()
    }

    /// Drops a record that is whole. Does nothing where none is.
    pub fn advance(&mut self)
        ensures reader { self.new ≡ without_frame self.old }
        ensures none { frame_of self.new ≡ None }
    {
        if self.is_whole() {
            self.held.clear();
            self.missing = HEADER;
        }
    }
}
