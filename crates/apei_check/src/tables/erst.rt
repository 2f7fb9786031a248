// The lines of an Error Record Serialization Table.
ghost use Rattle.std.specs.Prelude.{◌≡◌, ◌≤◌, ◌<◌, ◌^◌, length, Err, None, OnOk, ◌++◌, codes, decimal};
ghost use Rattle.apei_check.specs.Shown.{Shows, ShowsPart, HasStopCause};
ghost use Rattle.apei_check.specs.TableLines.{entry_line};
ghost use Rattle.apei_check.specs.Tables.{AreErstLines};
ghost use Rattle.erst_entries.specs.Tables.{refusal};

use crate::text::{CheckStop, InOrder, Numbered, Show, write_refused};
use apei_bytes::Sink;
use erst_entries::{Entry, ErstError, ErstTable};
use script_lines::LineText;
use std::alloc::Global;

/// Shows the Error Record Serialization Table that the bytes begin with: a line on the table, and one for each instruction entry. Where
/// they begin with none, a line says why.
pub fn check_erst<O: Sink>(
    alloc: Global,
    bytes: &[u8],
    show: Show,
    out: &mut O,
) -> Result<(), CheckStop>
    ensures shown { OnOk result (Shows O.tells (AreErstLines show bytes.now) (O.written out.old) (O.written out.new)) }
    ensures part { result ≡ Err CheckStop.SinkFault → ShowsPart O.tells (AreErstLines show bytes.now)
        (O.written out.old) (O.written out.new) }
    ensures memory { result ≡ Err CheckStop.Memory → (refusal bytes.now ≡ None) × (out.new ≡ out.old) }
    ensures cause { HasStopCause (O.faults out.old) (O.faults out.new) result }
{
    match ErstTable::decode(alloc, bytes) {
        Ok((table, len)) => {
            let head = table_line(&table, len, bytes.len() - len);
            Ok(show.write(head, &InOrder { item: table }, out)?)
        }
        Err(ErstError::Memory) => Err(CheckStop::Memory),
        Err(why) => Ok(write_refused(b"bad erst ", &why, out)?),
    }
}

/// The line on a table.
fn table_line(table: &ErstTable, len: usize, rest: usize) -> LineText
    ensures text { result ≡ codes "erst " ++ decimal len ++ codes " entries " ++ decimal (length table.now.entries) ++ codes " rest " ++ decimal rest }
    ensures short { length result ≤ 255 }
{
    let mut line = LineText::new();
    line.add_one(b"erst ", len as u64);
    line.add_one(b" entries ", table.len() as u64);
    line.add_one(b" rest ", rest as u64);
    line
}

impl Numbered for ErstTable {
    ghost use Rattle.apei_check.specs.Shown.{numbered_lines};
    ghost use Rattle.apei_check.specs.TableLines.{entry_line};

    ghost part_lines = { λ table. numbered_lines entry_line table.entries };

    fn count(&self) -> usize {
        self.len()
    }

    fn part_line(&self, index: usize) -> LineText {
        entry_line(index, &self.entry(index))
    }
}

/// The line on an entry.
fn entry_line(index: usize, entry: &Entry) -> LineText
    ensures text { result ≡ entry_line index entry.now }
    ensures short { length result ≤ 255 }
{
    let mut line = LineText::new();
    line.add_one(b"entry ", index as u64);
    line.add_byte(b" action ", entry.action);
    line.add_byte(b" instruction ", entry.code);
    line.add_byte(b" flags ", entry.flags);
    line.add_byte(b" space ", entry.region.space);
    line.add_byte(b" width ", entry.region.width);
    line.add_byte(b" offset ", entry.region.offset);
    line.add_byte(b" access ", entry.region.access);
    line.add_one(b" address ", entry.region.address);
    line.add_one(b" value ", entry.value);
    line.add_one(b" mask ", entry.mask);
    line
}
