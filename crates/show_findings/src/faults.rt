// What is wrong with an item.
ghost use Rattle.std.specs.Prelude.{IfOk, IfSome, is_some};
ghost use Rattle.show_findings.specs.Faults.{IsJudged, IsPlace};

use crate::{seen_u16, seen_u32};
use apei_tables::TableError;
use cper_frame::FrameError;
use erst_entries::ErstError;
use ghes_block::BlockError;
use hest_sources::HestError;
use item_parts::{Item, ItemError, check};
use std::alloc::{AllocError, Global};

/// The first fault of an item, as its decoder says it.
#[derive(Debug, Drop)]
pub struct Fault {
    /// Where it stands, from the item's start.
    pub at: u64,
    /// What stands there and what was expected.
    pub says: String,
}

/// The first fault of what the bytes begin with; none where it is sound.
pub fn fault_of(alloc: Global, item: Item, bytes: &[u8]) -> Result<Option<Fault>, AllocError>
    ensures judged { IfOk result (λ fault. IsJudged item bytes.now (is_some fault)) }
    ensures place { IfOk result (λ fault. IfSome fault (λ fault. IsPlace item bytes.now fault.at)) }
{
    let Err(error) = check(alloc, item, bytes) else {
        return Ok(None);
    };
    let Some(fault) = error.fault(bytes.len() as u64) else {
        return Err(AllocError);
    };
    let mut says = String::new(alloc);
    add_error(&mut says, &error, bytes)?;
    Ok(Some(Fault { at: fault.at, says }))
}

fn add_error(out: &mut String, error: &ItemError, bytes: &[u8]) -> Result<(), AllocError> {
    match *error {
        ItemError::Erst(error) => add_erst(out, error, bytes),
        ItemError::Hest(error) => add_hest(out, error, bytes),
        ItemError::Bert(error) => add_table(out, error, bytes),
        ItemError::Record(error) => add_record(out, error, bytes),
        ItemError::Block(error) => add_block(out, error, bytes),
    }
}

fn add_table(out: &mut String, error: TableError, bytes: &[u8]) -> Result<(), AllocError> {
    let there = bytes.len();
    match error {
        TableError::Short { have } => {
            write!(
                out,
                "a table begins with a header of 36 bytes, and {have} are there"
            )
        }
        TableError::Signature { found: _ } => out.push_str(
            "the signature is that of another table",
        ),
        TableError::Length { found } if found > there as u64 => {
            write!(out, "the length is {found}, and {there} bytes are there")
        }
        TableError::Length { found } => {
            write!(
                out,
                "the length is {found}, and the fixed part of such a table is longer"
            )
        }
        TableError::Sum { found } => {
            write!(
                out,
                "the bytes add to {found} modulo 256, and 0 was expected"
            )
        }
    }
}

fn add_erst(out: &mut String, error: ErstError, bytes: &[u8]) -> Result<(), AllocError> {
    match error {
        ErstError::Table(error) => add_table(out, error, bytes),
        ErstError::HeaderSize { found } => {
            write!(
                out,
                "the serialization header size is {found}, and 48 was expected, or 12, which most firmware writes"
            )
        }
        ErstError::Count { found, length } => {
            let room = length.saturating_sub(48) / 32;
            write!(
                out,
                "the count is {found}, and a table of {length} bytes has room for {room} entries"
            )
        }
        ErstError::Memory => Ok(()),
    }
}

fn add_hest(out: &mut String, error: HestError, bytes: &[u8]) -> Result<(), AllocError> {
    match error {
        HestError::Table(error) => add_table(out, error, bytes),
        HestError::UnknownType { at: _, code } => {
            write!(
                out,
                "an error source is of type {code}, whose length the standard does not say"
            )
        }
        HestError::Cut { at: _ } => out.push_str("an error source ends behind the table"),
        HestError::Count { declared, found } => add_count(out, declared, found),
        HestError::Memory => Ok(()),
    }
}

// A count that is too small is known of some firmware.
fn add_count(out: &mut String, declared: u64, found: u64) -> Result<(), AllocError> {
    write!(
        out,
        "the count is {declared} and there are {found} structures"
    )?;
    if declared == 1 && found == 2 {
        return out.push_str(": coreboot for Xeon SP writes that; Linux takes the first");
    }
    if declared < found {
        return write!(out, ": Linux takes the first {declared}");
    }
    Ok(())
}

fn add_record(out: &mut String, error: FrameError, bytes: &[u8]) -> Result<(), AllocError> {
    let there = bytes.len();
    match error {
        FrameError::Need { more: _ } if there < 128 => {
            write!(
                out,
                "a record begins with a header of 128 bytes, and {there} are there"
            )
        }
        FrameError::Need { more } => {
            let length = seen_u32(bytes, 20);
            write!(
                out,
                "the record length is {length}, and {there} bytes are there: {more} are missing"
            )
        }
        FrameError::Start => out.push_str("a record begins with CPER"),
        FrameError::End => {
            let found = u32::from(seen_u16(bytes, 8)) * 65536 + u32::from(seen_u16(bytes, 6));
            write!(
                out,
                "the signature ends with {found:#010x}, and 0xffffffff was expected"
            )
        }
        FrameError::Length { found } => {
            let sections = seen_u16(bytes, 10);
            write!(
                out,
                "the record length is {found}, too small for a header and {sections} descriptors"
            )
        }
        FrameError::Section { index } => {
            write!(
                out,
                "the body of section {index} does not stand between the descriptors and the record's end"
            )
        }
        FrameError::Limit { found } => write!(out, "the record length is {found}"),
    }
}

fn add_block(out: &mut String, error: BlockError, bytes: &[u8]) -> Result<(), AllocError> {
    let there = bytes.len();
    match error {
        BlockError::Need { more } => {
            write!(out, "{there} bytes are there, and {more} are missing")
        }
        BlockError::NotPublished => out.push_str("the block status is 0, and a block has one"),
        BlockError::RawOffset { found } => {
            write!(
                out,
                "the raw data begins at {found}, before the entries end"
            )
        }
        BlockError::Entry { index, at: _ } => {
            write!(out, "entry {index} ends behind the data length")
        }
        BlockError::Rest { bytes } => {
            write!(
                out,
                "{bytes} bytes are left behind the last entry, too few for another one"
            )
        }
    }
}
