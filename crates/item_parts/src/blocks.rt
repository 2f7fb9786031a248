// The data entries of an error status block.
ghost use Rattle.std.specs.Prelude.{◌≡◌, ◌+◌, All, length, slice_get, IfOk, IfErr};
ghost use Rattle.ghes_block.specs.Grammar.{IsEntry, IsEntryHead, entry_bytes};
ghost use Rattle.ghes_block.specs.Entries.{value_of, IsPlace};
ghost use Rattle.item_parts.specs.Parts.{data_part, data_parts};
ghost use Rattle.item_parts.specs.Items.{BlockParts, Counts, Tells, FindsCount, FindsPart, IsFault};

use crate::faults::ItemError;
use crate::items::Item;
use crate::parts::Part;
use ghes_block::{Block, DataEntry};

/// Where the first entry of a block begins.
const FIRST: u64 = 20;

/// How many data entries the block has that the bytes begin with.
pub fn count(bytes: &[u8]) -> Result<u32, ItemError>
    ensures found { IfOk result (Counts BlockParts bytes.now) }
    ensures only { FindsCount BlockParts bytes.now result }
    ensures refused { IfErr result (IsFault Item.Block bytes.now) }
{
    match Block::decode(bytes) {
        Ok((block, _size)) => Ok(block.entries()),
        Err(error) => Err(ItemError::Block(error)),
    }
}

/// An entry from its place to that of the next one.
fn data_part(at: u64, next: u64, entry: &DataEntry<'_>) -> Part
    requires head { IsEntryHead entry.now.head }
    requires next { next ≡ at + length (entry_bytes (value_of entry.now)) }
    ensures { result ≡ data_part at (value_of entry.now) }
{
    let body_len = entry.body.len() as u64;
    let body = next - body_len;
    Part {
        at,
        len: body - at,
        body,
        body_len,
        kind: 0,
    }
}

fn part_of(block: &Block<'_>, index: u32) -> Option<Part>
    requires entries { All IsEntry block.now.entries }
    requires first { IsPlace block.now.entries 20 }
    ensures { result ≡ slice_get (data_parts 20 block.now.entries) index }
{
    let mut at = FIRST;
    for _passed in 0..index {
        let Some((_, next)) = block.entry_at(at) else {
            return None;
        };
        at = next;
    }
    let Some((entry, next)) = block.entry_at(at) else {
        return None;
    };
    Some(data_part(at, next, &entry))
}

/// A data entry of the block that the bytes begin with.
pub fn part(bytes: &[u8], index: u32) -> Result<Option<Part>, ItemError>
    ensures found { IfOk result (Tells BlockParts bytes.now index) }
    ensures only { FindsPart BlockParts bytes.now index result }
    ensures refused { IfErr result (IsFault Item.Block bytes.now) }
{
    match Block::decode(bytes) {
        Ok((block, _size)) => Ok(part_of(&block, index)),
        Err(error) => Err(ItemError::Block(error)),
    }
}
