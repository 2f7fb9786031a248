// What a check of an error record shows.
ghost use Rattle.std.specs.Prelude.{◌≡◌, ◌≢◌, ◌≤◌, length, OnOk, OnErr, Err};
ghost use Rattle.base_model.specs.Faults.{HasCause};
ghost use Rattle.apei_check.specs.Shown.{Shows, ShowsPart, HasStopCause};
ghost use Rattle.cper_frame.specs.Sections.{value_of};
ghost use Rattle.apei_check.specs.Frames.{AreRecordLines, record_line, section_line};

use crate::text::{CheckStop, InOrder, Numbered, Show, write_refused};
use apei_bytes::{Sink, SinkFault};
use cper_frame::{Record, Section};
use script_lines::LineText;

/// The line of a section.
#[tactic(auto, unfolding(crate::specs::Frames::section_line))]
fn section_line(index: u16, section: &Section<'_>) -> LineText
    ensures text { result ≡ section_line index (value_of section.now) }
    ensures short { length result ≤ 255 }
{
    let mut kind = [0; 36];
    section.head.kind.text(&mut kind);
    let mut line = LineText::new();
    line.add_one(b"section ", u64::from(index));
    line.add(b" kind ");
    line.add(&kind);
    line.add_one(b" at ", u64::from(section.offset));
    line.add_one(b" bytes ", section.body.len() as u64);
    line.add_one(b" severity ", u64::from(section.head.severity));
    line
}

/// The line of a record of so many bytes, with so many bytes behind it.
#[tactic(auto, unfolding(crate::specs::Frames::record_line))]
fn record_line(framed: &Record<'_>, size: usize, rest: usize) -> LineText
    ensures text { result ≡ record_line framed.now size rest }
    ensures short { length result ≤ 255 }
{
    let head = framed.head();
    let mut line = LineText::new();
    line.add_one(b"record ", size as u64);
    line.add_one(b" sections ", u64::from(framed.sections()));
    line.add_one(b" severity ", u64::from(head.severity));
    line.add_one(b" id ", head.id);
    line.add_one(b" rest ", rest as u64);
    line
}

impl Numbered for Record<'_> {
    ghost use Rattle.apei_check.specs.Shown.{numbered_lines};
    ghost use Rattle.apei_check.specs.Frames.{section_line};

    ghost part_lines = { λ framed. numbered_lines section_line framed.sections };

    fn count(&self) -> usize {
        usize::from(self.sections())
    }

    fn part_line(&self, index: usize) -> LineText {
        // The number of sections has 16 bits, so the index has.
        let _count = self.sections();
        let index = index as u16;
        section_line(index, &self.section(index))
    }
}

/// Writes what a check of a record shows.
fn write_check<O: Sink>(bytes: &[u8], show: Show, out: &mut O) -> Result<(), SinkFault>
    ensures all { OnOk result (Shows O.tells (AreRecordLines show bytes.now) (O.written out.old) (O.written out.new)) }
    ensures part { OnErr result (ShowsPart O.tells (AreRecordLines show bytes.now) (O.written out.old)
        (O.written out.new)) }
    ensures cause { HasCause (O.faults out.old) (O.faults out.new) result }
{
    match Record::decode(bytes) {
        Ok((framed, size)) => {
            let head = record_line(&framed, size, bytes.len() - size);
            show.write(head, &InOrder { item: framed }, out)
        }
        Err(error) => write_refused(b"bad record ", &error, out),
    }
}

/// Shows the record that the bytes begin with: a line on it, and one on each of its sections, as far as they are to be shown.
/// Bytes that begin with no record have one line that says why, whatever is to be shown.
pub fn check_record<O: Sink>(bytes: &[u8], show: Show, out: &mut O) -> Result<(), CheckStop>
    ensures shown { OnOk result (Shows O.tells (AreRecordLines show bytes.now) (O.written out.old)
        (O.written out.new)) }
    ensures part { result ≡ Err CheckStop.SinkFault → ShowsPart O.tells (AreRecordLines show bytes.now)
        (O.written out.old) (O.written out.new) }
    ensures no_memory { result ≢ Err CheckStop.Memory }
    ensures cause { HasStopCause (O.faults out.old) (O.faults out.new) result }
{
    write_check(bytes, show, out)?;
    Ok(())
}
