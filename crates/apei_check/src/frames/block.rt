// What a check of an error status block shows.
ghost use Rattle.std.specs.Prelude.{◌≡◌, ◌≢◌, ◌≤◌, length, OnOk, OnErr, Err};
ghost use Rattle.base_model.specs.Faults.{HasCause};
ghost use Rattle.apei_check.specs.Shown.{Shows, ShowsPart, HasStopCause, numbered_lines};
ghost use Rattle.apei_check.specs.Written.{Writes, WritesPart};
ghost use Rattle.ghes_block.specs.Entries.{value_of, IsPlace};
ghost use Rattle.apei_check.specs.Frames.{AreBlockLines, block_line, entry_line};

use crate::text::{CheckStop, Parts, Show, write_line, write_refused};
use apei_bytes::{Sink, SinkFault};
use ghes_block::{Block, DataEntry};
use script_lines::LineText;

/// Where the first entry of a block begins.
const FIRST: u64 = 20;

/// The line of an entry.
#[tactic(auto, unfolding(crate::specs::Frames::entry_line))]
fn entry_line(index: u64, entry: &DataEntry<'_>) -> LineText
    ensures text { result ≡ entry_line index (value_of entry.now) }
    ensures short { length result ≤ 255 }
{
    let mut kind = [0; 36];
    entry.head.kind.text(&mut kind);
    let mut line = LineText::new();
    line.add_one(b"part ", index);
    line.add(b" kind ");
    line.add(&kind);
    line.add_one(b" bytes ", entry.body.len() as u64);
    line.add_one(b" severity ", u64::from(entry.head.severity));
    line
}

/// The line of a block with so many bytes behind it.
#[tactic(auto, unfolding(crate::specs::Frames::block_line))]
fn block_line(block: &Block<'_>, rest: usize) -> LineText
    ensures text { result ≡ block_line block.now rest }
    ensures short { length result ≤ 255 }
{
    let mut line = LineText::new();
    line.add_one(b"block ", block.len());
    line.add_one(b" entries ", u64::from(block.entries()));
    line.add_one(b" status ", u64::from(block.status()));
    line.add_one(b" severity ", u64::from(block.severity()));
    line.add_one(b" raw ", block.raw().len() as u64);
    line.add_one(b" rest ", rest as u64);
    line
}

/// Writes the line of each entry.
fn write_entries<O: Sink>(block: &Block<'_>, out: &mut O) -> Result<(), SinkFault>
    requires { IsPlace block.now.entries 20 }
    ensures all { OnOk result (Writes O.tells (numbered_lines entry_line block.now.entries) (O.written out.old) (O.written out.new)) }
    ensures part { OnErr result (WritesPart O.tells (numbered_lines entry_line block.now.entries) (O.written out.old)
        (O.written out.new)) }
    ensures cause { HasCause (O.faults out.old) (O.faults out.new) result }
{
    let mut at = FIRST;
    let mut index = 0;
    while let Some((entry, next)) = block.entry_at(at) {
        write_line(entry_line(index, &entry), out)?;
        at = next;
        index += 1;
    }
    Ok(())
}

impl Parts for Block<'_> {
    ghost use Rattle.ghes_block.specs.Entries.{IsPlace};
    ghost use Rattle.apei_check.specs.Shown.{numbered_lines};
    ghost use Rattle.apei_check.specs.Frames.{entry_line};

    ghost is_decoded = { λ block. IsPlace block.entries 20 };

    ghost lines = { λ block. numbered_lines entry_line block.entries };

    fn write_parts<O: Sink>(&self, out: &mut O) -> Result<(), SinkFault> {
        write_entries(self, out)
    }
}

/// Writes what a check of a block shows.
fn write_check<O: Sink>(bytes: &[u8], show: Show, out: &mut O) -> Result<(), SinkFault>
    ensures all { OnOk result (Shows O.tells (AreBlockLines show bytes.now) (O.written out.old) (O.written out.new)) }
    ensures part { OnErr result (ShowsPart O.tells (AreBlockLines show bytes.now) (O.written out.old)
        (O.written out.new)) }
    ensures cause { HasCause (O.faults out.old) (O.faults out.new) result }
{
    match Block::decode(bytes) {
        Ok((block, size)) => show.write(block_line(&block, bytes.len() - size), &block, out),
        Err(error) => write_refused(b"bad block ", &error, out),
    }
}

/// Shows the status block that the bytes begin with: a line on it, and one on each of its entries, as far as they are to be
/// shown. Bytes that begin with no block have one line that says why, whatever is to be shown.
pub fn check_block<O: Sink>(bytes: &[u8], show: Show, out: &mut O) -> Result<(), CheckStop>
    ensures shown { OnOk result (Shows O.tells (AreBlockLines show bytes.now) (O.written out.old) (O.written out.new)) }
    ensures part { result ≡ Err CheckStop.SinkFault → ShowsPart O.tells (AreBlockLines show bytes.now)
        (O.written out.old) (O.written out.new) }
    ensures no_memory { result ≢ Err CheckStop.Memory }
    ensures cause { HasStopCause (O.faults out.old) (O.faults out.new) result }
{
    write_check(bytes, show, out)?;
    Ok(())
}
