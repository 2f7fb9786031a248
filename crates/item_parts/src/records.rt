// The sections of an error record.
ghost use Rattle.std.specs.Prelude.{◌≡◌, ◌+◌, ◌*◌, slice_get, IfOk, IfErr};
ghost use Rattle.cper_frame.specs.Sections.{value_of};
ghost use Rattle.item_parts.specs.Parts.{section_part, section_parts};
ghost use Rattle.item_parts.specs.Items.{RecordParts, Counts, Tells, FindsCount, FindsPart, IsFault};

use crate::faults::ItemError;
use crate::items::Item;
use crate::parts::Part;
use cper_frame::{Record, Section};

/// Where the descriptors begin, and the bytes of one (UEFI 2.8, N.2.2).
const FIRST: u64 = 128;

const DESCRIPTOR: u64 = 72;

/// How many sections the record has that the bytes begin with.
pub fn count(bytes: &[u8]) -> Result<u32, ItemError>
    ensures found { IfOk result (Counts RecordParts bytes.now) }
    ensures only { FindsCount RecordParts bytes.now result }
    ensures refused { IfErr result (IsFault Item.Record bytes.now) }
{
    match Record::decode(bytes) {
        Ok((record, _size)) => Ok(u32::from(record.sections())),
        Err(error) => Err(ItemError::Record(error)),
    }
}

fn section_part(index: u16, section: &Section<'_>) -> Part
    ensures { result ≡ section_part (128 + 72 * index) (value_of section.now) }
{
    Part {
        at: FIRST + DESCRIPTOR * u64::from(index),
        len: DESCRIPTOR,
        body: u64::from(section.offset),
        body_len: section.body.len() as u64,
        kind: 0,
    }
}

/// A section of the record that the bytes begin with.
pub fn part(bytes: &[u8], index: u32) -> Result<Option<Part>, ItemError>
    ensures found { IfOk result (Tells RecordParts bytes.now index) }
    ensures only { FindsPart RecordParts bytes.now index result }
    ensures refused { IfErr result (IsFault Item.Record bytes.now) }
{
    match Record::decode(bytes) {
        Ok((record, _size)) => Ok(part_of(&record, index)),
        Err(error) => Err(ItemError::Record(error)),
    }
}

fn part_of(framed: &Record<'_>, index: u32) -> Option<Part>
    ensures { result ≡ slice_get (section_parts 128 framed.now.sections) index }
{
    if index >= u32::from(framed.sections()) {
        return None;
    }
    let index = index as u16;
    Some(section_part(index, &framed.section(index)))
}
