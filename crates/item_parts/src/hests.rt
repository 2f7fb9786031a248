// The error sources of a Hardware Error Source Table, where they stand.
ghost use Rattle.std.specs.Prelude.{◌≡◌, ◌<◌, ◌^◌, slice_get, IfOk, IfErr};
ghost use Rattle.item_parts.specs.Parts.{size_of_source, type_of_source, source_parts};
ghost use Rattle.item_parts.specs.Items.{HestParts, Counts, Tells, FindsCount, FindsPart, IsFault};

use crate::faults::ItemError;
use crate::items::Item;
use crate::parts::Part;
use hest_sources::{Hest, HestSource};
use std::alloc::Global;

/// Where the error sources begin (ACPI 6.4, 18.3.2).
const FIRST: u64 = 40;

fn size_of_source(source: &HestSource) -> u64
    ensures size { result ≡ size_of_source source.now }
    ensures small { result < 2 ^ 32 }
{
    match source {
        HestSource::Ghes(source) => match source.ack {
            Some(_) => 92,
            None => 64,
        },
        HestSource::Other {
            kind: _,
            at: _,
            len,
        } => u64::from(*len),
    }
}

fn type_of_source(source: &HestSource) -> u32
    ensures { result ≡ type_of_source source.now }
{
    match source {
        HestSource::Ghes(source) => match source.ack {
            Some(_) => 10,
            None => 9,
        },
        HestSource::Other {
            kind,
            at: _,
            len: _,
        } => u32::from(*kind),
    }
}

/// How many error sources the table has that the bytes begin with.
pub fn count(alloc: Global, bytes: &[u8]) -> Result<u32, ItemError>
    ensures found { IfOk result (Counts HestParts bytes.now) }
    ensures only { FindsCount HestParts bytes.now result }
    ensures refused { IfErr result (IsFault Item.Hest bytes.now) }
{
    match Hest::decode(alloc, bytes) {
        Ok((hest, _size)) => Ok(hest.sources().len() as u32),
        Err(error) => Err(ItemError::Hest(error)),
    }
}

fn part_of(sources: &[HestSource], index: u32) -> Option<Part>
    ensures { result ≡ slice_get (source_parts 40 sources.now) index }
{
    let mut at = FIRST;
    for (place, source) in sources.iter().enumerate() {
        let size = size_of_source(source);
        if place == index as usize {
            return Some(Part {
                at,
                len: size,
                body: 0,
                body_len: 0,
                kind: type_of_source(source),
            });
        }
        at += size;
    }
    None
}

/// An error source of the table that the bytes begin with.
pub fn part(alloc: Global, bytes: &[u8], index: u32) -> Result<Option<Part>, ItemError>
    ensures found { IfOk result (Tells HestParts bytes.now index) }
    ensures only { FindsPart HestParts bytes.now index result }
    ensures refused { IfErr result (IsFault Item.Hest bytes.now) }
{
    match Hest::decode(alloc, bytes) {
        Ok((hest, _size)) => Ok(part_of(hest.sources(), index)),
        Err(error) => Err(ItemError::Hest(error)),
    }
}
