// The lines of a Hardware Error Source Table.
ghost use Rattle.std.specs.Prelude.{◌≡◌, ◌≤◌, ◌++◌, length, codes, decimal, Err, None, OnOk};
ghost use Rattle.apei_check.specs.Shown.{Shows, ShowsPart, HasStopCause};
ghost use Rattle.apei_check.specs.TableLines.{source_line};
ghost use Rattle.apei_check.specs.Tables.{AreHestLines};
ghost use Rattle.hest_sources.specs.declared.sources.HestSource.TheVariants.{Ghes as Generic};
ghost use Rattle.hest_sources.specs.Layout.{type_of};
ghost use Rattle.hest_sources.specs.Tables.{refusal};

use crate::text::{CheckStop, InOrder, Numbered, Show, write_refused};
use apei_bytes::Sink;
use hest_sources::{Ghes, Hest, HestError, HestSource};
use script_lines::LineText;
use std::alloc::Global;

/// Shows the Hardware Error Source Table that the bytes begin with: a line on the table, and one for each error source. Where they begin
/// with none, a line says why.
pub fn check_hest<O: Sink>(
    alloc: Global,
    bytes: &[u8],
    show: Show,
    out: &mut O,
) -> Result<(), CheckStop>
    ensures shown { OnOk result (Shows O.tells (AreHestLines show bytes.now) (O.written out.old) (O.written out.new)) }
    ensures part { result ≡ Err CheckStop.SinkFault → ShowsPart O.tells (AreHestLines show bytes.now)
        (O.written out.old) (O.written out.new) }
    ensures memory { result ≡ Err CheckStop.Memory → (refusal bytes.now ≡ None) × (out.new ≡ out.old) }
    ensures cause { HasStopCause (O.faults out.old) (O.faults out.new) result }
{
    match Hest::decode(alloc, bytes) {
        Ok((table, len)) => {
            let head = table_line(table.sources(), len, bytes.len() - len);
            Ok(show.write(head, &InOrder { item: table }, out)?)
        }
        Err(HestError::Memory) => Err(CheckStop::Memory),
        Err(why) => Ok(write_refused(b"bad hest ", &why, out)?),
    }
}

/// The line on a table.
fn table_line(sources: &[HestSource], len: usize, rest: usize) -> LineText
    ensures text { result ≡ codes "hest " ++ decimal len ++ codes " sources " ++ decimal (length sources.now) ++ codes " rest " ++ decimal rest }
    ensures short { length result ≤ 255 }
{
    let mut line = LineText::new();
    line.add_one(b"hest ", len as u64);
    line.add_one(b" sources ", sources.len() as u64);
    line.add_one(b" rest ", rest as u64);
    line
}

impl Numbered for Hest {
    ghost use Rattle.apei_check.specs.Shown.{numbered_lines};
    ghost use Rattle.apei_check.specs.TableLines.{source_line};

    ghost part_lines = { numbered_lines source_line };

    fn count(&self) -> usize {
        self.sources().len()
    }

    fn part_line(&self, index: usize) -> LineText {
        source_line(index, &self.sources()[index])
    }
}

/// The line on a source.
fn source_line(index: usize, source: &HestSource) -> LineText
    ensures text { result ≡ source_line index source.now }
    ensures short { length result ≤ 255 }
{
    match source {
        HestSource::Ghes(source) => ghes_line(index, source),
        HestSource::Other { kind, .. } => kind_line(index, *kind),
    }
}

/// The line on a source by its type alone.
fn kind_line(index: usize, kind: u16) -> LineText
    ensures text { result ≡ codes "source " ++ decimal index ++ codes " kind " ++ decimal kind }
    ensures short { length result ≤ 53 }
{
    let mut line = LineText::new();
    line.add_one(b"source ", index as u64);
    line.add_one(b" kind ", u64::from(kind));
    line
}

/// The line on a generic source.
fn ghes_line(index: usize, source: &Ghes) -> LineText
    ensures text { result ≡ source_line index (Generic source.now) }
    ensures short { length result ≤ 255 }
{
    let mut line = kind_line(index, kind_of(source));
    line.add_one(b" id ", u64::from(source.id));
    line.add_one(b" enabled ", u64::from(source.enabled));
    line.add_one(b" block ", u64::from(source.block_len));
    line
}

/// The type of a generic source.
fn kind_of(source: &Ghes) -> u16
    ensures { result ≡ type_of source.now.ack }
{
    match source.ack {
        Some(_) => 10,
        None => 9,
    }
}
