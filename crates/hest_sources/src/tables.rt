// The table.
ghost use Rattle.std.specs.Prelude.{◌≡◌, ℕ, ◌^◌, ◌<◌, ◌≤◌, List, length, take, Ok, Some, None, IfOk, IfErr, MatchResult, drop};
ghost use Rattle.hest_sources.specs.declared.sources.HestSource.{HestSource as Source};
ghost use Rattle.hest_sources.specs.declared.tables.HestError.TheVariants.{Memory as OutOfMemory};
ghost use Rattle.hest_sources.specs.Walk.{source_count, structure_walk};
ghost use Rattle.hest_sources.specs.Tables.{IsHest, CountsTable, IsMalformed, IsRefusal, refusal};
ghost use Rattle.apei_bytes.specs.Walk.{items_in};

use crate::sources::{HestSource, length_of};
use apei_bytes::get_u32;
use apei_tables::{Header, TableError};
use std::alloc::{AllocError, Global};
use std::marker::Model;

/// Why bytes don't begin with a Hardware Error Source Table. Places count from the table's start.
#[derive(Clone, Copy, Debug, PartialEq, Eq)]
pub enum HestError {
    /// They begin with no sealed table of this signature that has at least the 40 bytes before the structures.
    Table(TableError),
    /// A structure of a type whose length isn't known.
    UnknownType { at: u64, code: u64 },
    /// A structure leaves the table.
    Cut { at: u64 },
    /// There are more or fewer structures than the table says.
    Count { declared: u64, found: u64 },
    /// There was no memory for the sources.
    Memory,
}

/// A Hardware Error Source Table (ACPI 6.4, 18.3.2): its sources in their order.
#[derive(Drop)]
pub struct Hest {
    sources: Vec<HestSource>,
}

impl Model for Hest {
    ghost use Rattle.std.specs.Prelude.{List};
    ghost use Rattle.hest_sources.specs.declared.sources.HestSource.{HestSource};

    ghost Value = { List HestSource };

    ghost view = { λ h. h.sources.items };
}

/// The bytes before the structures.
const FIXED: usize = 40;

/// How many structures a table has, up to its end.
fn count_structures(table: &[u8]) -> Result<usize, HestError>
    requires { 40 ≤ length table.now }
    ensures count { result ≡ source_count table.now }
    ensures malformed { IfErr result IsMalformed }
{
    let mut at = FIXED;
    let mut count = 0;
    while at < table.len() {
        at += length_of(&table[at..], at as u64)?;
        count += 1;
    }
    Ok(count)
}

/// The table that stands first, and how many sources it has, all of it checked but for memory.
fn check(bytes: &[u8]) -> Result<(&[u8], usize), HestError>
    ensures found { IfOk result (λ x. CountsTable bytes.now x.0.now x.1) }
    ensures refused { MatchResult result (λ _. refusal bytes.now ≡ None) (λ e. refusal bytes.now ≡ Some e) }
    ensures malformed { IfErr result IsMalformed }
{
    let (_, table) = match Header::decode(bytes, *b"HEST", FIXED as u32) {
        Ok(found) => found,
        Err(error) => return Err(HestError::Table(error)),
    };
    let count = count_structures(table)?;
    let declared = u64::from(get_u32(table, 36));
    let found = count as u64;
    if declared != found {
        return Err(HestError::Count { declared, found });
    }
    Ok((table, count))
}

/// The sources of a table that has so many.
fn read_sources(alloc: Global, table: &[u8], count: usize) -> Result<Vec<HestSource>, AllocError>
    requires low { 40 ≤ length table.now }
    requires high { length table.now < 2 ^ 32 }
    requires count { source_count table.now ≡ Ok count }
    ensures { IfOk result (λ sources. sources.items ≡ items_in structure_walk (length table.now) 0 40 (drop 40 table.now)) }
{
    let mut sources = Vec::with_capacity(alloc, count)?;
    let mut at = FIXED;
    while at < table.len() {
        let rest = &table[at..];
        let Ok(length) = length_of(rest, at as u64) else {
            unreachable!()
        };
        sources.push_reserved(HestSource::read(rest, at as u32, length as u32));
        at += length;
    }
    Ok(sources)
}

impl Hest {
    /// The table that stands first in `bytes`, and how many bytes it has. Bytes behind it are left alone. The
    /// structures are walked to the table's end. The refusals are tried in the order of `HestError`.
    pub fn decode(alloc: Global, bytes: &[u8]) -> Result<(Hest, usize), HestError>
        // What is found is a table of these sources.
        ensures found { IfOk result (λ x. (x.1 ≤ length bytes.now) × IsHest x.0 (take x.1 bytes.now)) }
        // What is such a table is found.
        ensures only { (sources : List Source) (n : ℕ) → n ≤ length bytes.now → IsHest sources (take n bytes.now)
            → MatchResult result (λ x. (x.0 ≡ sources) × (x.1 ≡ n)) (λ e. e ≡ OutOfMemory) }
        // The error is the first reason that applies, and want of memory where there is none.
        ensures refused { MatchResult result (λ _. refusal bytes.now ≡ None) (IsRefusal bytes.now) }
    {
        Hest::find(alloc, bytes)
    }

    /// The same, by the tests alone.
    fn find(alloc: Global, bytes: &[u8]) -> Result<(Hest, usize), HestError>
        ensures found { IfOk result (λ x. (x.1 ≤ length bytes.now) × IsHest x.0 (take x.1 bytes.now)) }
        ensures refused { MatchResult result (λ _. refusal bytes.now ≡ None) (IsRefusal bytes.now) }
    {
        let (table, count) = match check(bytes) {
            Ok(found) => found,
            Err(error) => return Err(error),
        };
        let Ok(sources) = read_sources(alloc, table, count) else {
            return Err(HestError::Memory);
        };
        Ok((Hest { sources }, table.len()))
    }

    /// Its sources.
    pub fn sources(&self) -> &[HestSource]
        ensures { result.now ≡ self.now }
    {
        self.sources.as_slice()
    }
}
