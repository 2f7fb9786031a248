// The line of a Boot Error Record Table.
ghost use Rattle.std.specs.Prelude.{◌≡◌, ◌≢◌, ◌≤◌, length, Err, OnOk, ◌++◌, codes, decimal};
ghost use Rattle.apei_check.specs.Shown.{Shows, ShowsPart, HasStopCause};
ghost use Rattle.apei_check.specs.Tables.{AreBertLines};

use crate::text::{CheckStop, Show, write_refused};
use apei_bytes::Sink;
use ghes_block::Bert;
use script_lines::LineText;

/// Shows the Boot Error Record Table that the bytes begin with, by one line. Where they begin with none, a line says why.
pub fn check_bert<O: Sink>(bytes: &[u8], show: Show, out: &mut O) -> Result<(), CheckStop>
    ensures shown { OnOk result (Shows O.tells (AreBertLines show bytes.now) (O.written out.old) (O.written out.new)) }
    ensures part { result ≡ Err CheckStop.SinkFault → ShowsPart O.tells (AreBertLines show bytes.now)
        (O.written out.old) (O.written out.new) }
    ensures no_memory { result ≢ Err CheckStop.Memory }
    ensures cause { HasStopCause (O.faults out.old) (O.faults out.new) result }
{
    match Bert::decode(bytes) {
        Ok((table, len)) => Ok(show.write_head(table_line(&table, len, bytes.len() - len), out)?),
        Err(why) => Ok(write_refused(b"bad bert ", &why, out)?),
    }
}

/// The line on a table of `len` bytes with `rest` behind it.
fn table_line(table: &Bert, len: usize, rest: usize) -> LineText
    ensures text { result ≡ codes "bert " ++ decimal len ++ codes " region " ++ decimal table.now.region
        ++ codes " bytes " ++ decimal table.now.len ++ codes " rest " ++ decimal rest }
    ensures short { length result ≤ 255 }
{
    let mut line = LineText::new();
    line.add_one(b"bert ", len as u64);
    line.add_one(b" region ", table.region);
    line.add_one(b" bytes ", u64::from(table.len));
    line.add_one(b" rest ", rest as u64);
    line
}
