// A record in bytes.
ghost use Rattle.std.specs.Prelude.{◌≡◌, ℕ, ◌+◌, ◌-◌, ◌*◌, ◌^◌, ◌<◌, ◌≤◌, ◌++◌, List, [], length, take, Ok, Err, Some, slice_get, IfOk, IsOkAnd, MatchResult};
ghost use Rattle.base_model.specs.Bytes.{part};
ghost use Rattle.cper_frame.specs.Grammar.{RecordValue, IsRecord};
ghost use Rattle.cper_frame.specs.Reading.{checked, misplaced, misplaced_from, is_misplaced, record_of, IsWhole};
ghost use Rattle.cper_frame.specs.Sections.{value_of};

use crate::error::FrameError;
use crate::heads::{RecordHead, SectionHead};
use apei_bytes::{bytes_at, get_u16, get_u32};
use std::marker::Model;

/// The bytes of a record's header (UEFI 2.8, N.2.1).
pub const HEADER: usize = 128;

/// Where a header says the length of its record.
pub const LENGTH_AT: usize = 20;

/// Where a header says the identifier of its record.
pub const ID_AT: usize = 96;

/// The bytes of a descriptor.
pub(crate) const DESCRIPTOR: usize = 72;

/// "CPER", and the 0xFFFFFFFF that ends the signature, as numbers.
pub(crate) const SIGNATURE: u32 = 0x5245_5043;

pub(crate) const SIGNATURE_END: u32 = 0xFFFF_FFFF;

/// A record, as a part of the bytes that it was read from.
#[derive(Drop)]
pub struct Record<'a> {
    bytes: &'a [u8],
}

impl<'a> Model for Record<'a> {
    ghost use Rattle.cper_frame.specs.Grammar.{RecordValue};

    ghost Value = { RecordValue };

    ghost use Rattle.cper_frame.specs.Reading.{record_of, IsWhole};

    ghost view = { λ r. record_of r.bytes.now };

    ghost invariant = { λ r. IsWhole r.bytes.now };
}

/// A section: what its descriptor says, with the offset from the record's start, and its body, a part of the record.
#[derive(Clone, Copy)]
pub struct Section<'a> {
    pub head: SectionHead,
    pub offset: u32,
    pub body: &'a [u8],
}

fn descriptor(bytes: &[u8], index: u16) -> &[u8]
    requires { 128 + 72 * (index + 1) ≤ length bytes.now }
    ensures value { result.now ≡ part bytes.now (128 + 72 * index) 72 }
    ensures len { length result.now ≡ 72 }
{
    bytes_at(bytes, HEADER + DESCRIPTOR * index as usize, DESCRIPTOR)
}

/// Whether a section's body begins before `first` or ends behind `last`.
#[tactic(auto, unfolding(crate::specs::Reading::is_misplaced))]
fn is_outside(bytes: &[u8], first: u32, last: u32, index: u16) -> bool
    requires { 128 + 72 * (index + 1) ≤ length bytes.now }
    ensures { result ≡ is_misplaced bytes.now first last index }
{
    let descriptor = descriptor(bytes, index);
    let offset = get_u32(descriptor, 0);
    let length = get_u32(descriptor, 4);
    offset < first || u64::from(last) < u64::from(offset) + u64::from(length)
}

/// The first section whose body isn't in its place.
fn first_outside(bytes: &[u8], first: u32, last: u32, sections: u16) -> Option<u64>
    requires { 128 + 72 * sections ≤ length bytes.now }
    ensures { result ≡ misplaced_from bytes.now first last sections 0 }
{
    for index in 0..sections {
        if is_outside(bytes, first, last, index) {
            return Some(u64::from(index));
        }
    }
    None
}

/// The length of the record that the bytes begin with, of at most `limit` bytes.
#[tactic(auto, using(std::proofs::lemmas::Bool::Decides::nat_tests), unfolding(crate::specs::Reading::checked, crate::specs::Reading::misplaced))]
pub(crate) fn checked_length(bytes: &[u8], limit: u32) -> Result<u32, FrameError>
    ensures { result ≡ checked limit bytes.now }
{
    if bytes.len() < HEADER {
        return Err(FrameError::Need {
            more: (HEADER - bytes.len()) as u64,
        });
    }
    if get_u32(bytes, 0) != SIGNATURE {
        return Err(FrameError::Start);
    }
    if get_u32(bytes, 6) != SIGNATURE_END {
        return Err(FrameError::End);
    }
    let sections = get_u16(bytes, 10);
    let length = get_u32(bytes, LENGTH_AT);
    let first = 128 + 72 * u32::from(sections);
    if length < first {
        return Err(FrameError::Length {
            found: u64::from(length),
        });
    }
    if limit < length {
        return Err(FrameError::Limit {
            found: u64::from(length),
        });
    }
    if bytes.len() < length as usize {
        return Err(FrameError::Need {
            more: (length as usize - bytes.len()) as u64,
        });
    }
    match first_outside(bytes, first, length, sections) {
        Some(index) => Err(FrameError::Section { index }),
        None => Ok(length),
    }
}

impl<'a> Record<'a> {
    /// Reads the record at the front of the bytes, and says how many bytes it has. More bytes may follow.
    pub fn decode(bytes: &'a [u8]) -> Result<(Record<'a>, usize), FrameError>
        // What is found is a record.
        ensures found { IfOk result (λ x. (x.1 ≤ length bytes.now) × IsRecord x.0 (take x.1 bytes.now)) }
        // What is a record is found.
        ensures only { (value : RecordValue) (n : ℕ) → n ≤ length bytes.now → IsRecord value (take n bytes.now)
            → IsOkAnd result (λ x. (x.0 ≡ value) × (x.1 ≡ n)) }
        // The error is the first check that fails.
        ensures exact { MatchResult result (λ x. checked (2 ^ 32 - 1) bytes.now ≡ Ok x.1)
            (λ e. checked (2 ^ 32 - 1) bytes.now ≡ Err e) }
    {
        let length = checked_length(bytes, u32::MAX)? as usize;
        let record = Record {
            bytes: &bytes[..length],
        };
        Ok((record, length))
    }

    /// The record that the bytes are.
    pub(crate) fn whole(bytes: &'a [u8]) -> Record<'a>
        requires { IsWhole bytes.now }
        ensures value { result ≡ record_of bytes.now }
        ensures record { IsRecord result bytes.now }
    {
        Record { bytes }
    }

    /// What its header says.
    pub fn head(&self) -> RecordHead
        ensures { result ≡ self.now.head }
    {
        RecordHead::read(self.bytes)
    }

    /// How many sections it has.
    pub fn sections(&self) -> u16
        ensures { result ≡ length self.now.sections }
    {
        get_u16(self.bytes, 10)
    }

    /// A section, in the order of the descriptors from 0.
    pub fn section(&self, index: u16) -> Section<'a>
        requires { index < length self.now.sections }
        ensures { slice_get self.now.sections index ≡ Some (value_of result) }
    {
        let descriptor = descriptor(self.bytes, index);
        let offset = get_u32(descriptor, 0);
        let length = get_u32(descriptor, 4);
        Section {
            head: SectionHead::read(descriptor),
            offset,
            body: bytes_at(self.bytes, offset as usize, length as usize),
        }
    }
}

/// No record begins another, so where a record ends doesn't depend on what follows it.
pub fn one_end()
    ensures { (value other : RecordValue) (bytes more : List ℕ) → IsRecord value bytes
        → IsRecord other (bytes ++ more) → more ≡ [] }
{}
