// The line that sums up what was played.
ghost use Rattle.std.specs.Prelude.{◌≡◌, ◌≤◌, ◌+◌, ◌++◌, length, decimal};
ghost use Rattle.base_model.specs.Faults.{HasCause};
ghost use Rattle.apei_cli.specs.Summaries.{WritesText, summary_of};
ghost use Rattle.arrayvec.specs.ArrayVec.{array_vec_len};

use crate::generate::tally::Tally;
use apei_bytes::{Sink, SinkFault, write_all};
use arrayvec::ArrayVec;
use itoa::Buffer;

/// More bytes than the words and numbers of the line have.
const LONGEST: usize = 256;

/// Writes the line. `live` is the number of records, and `step` the flash step at which they were counted.
pub fn write_summary<O: Sink>(
    commands: u64,
    tally: &Tally,
    live: u64,
    step: u64,
    out: &mut O,
) -> Result<(), SinkFault>
    ensures text { O.tells → WritesText (summary_of commands tally.now live step) (O.written out.old)
        (O.written out.new) result }
    ensures cause { HasCause (O.faults out.old) (O.faults out.new) result }
{
    write_all(out, summary_text(commands, tally, live, step).as_slice())
}

/// The text of the line.
fn summary_text(commands: u64, tally: &Tally, live: u64, step: u64) -> ArrayVec<u8, LONGEST>
    ensures { result.items ≡ summary_of commands tally.now live step }
{
    let mut text = ArrayVec::new();
    add(&mut text, b"gen ", commands);
    add(&mut text, b" writes ", tally.writes);
    add(&mut text, b" clears ", tally.clears);
    add(&mut text, b" reads ", tally.reads);
    add(&mut text, b" nexts ", tally.nexts);
    add(&mut text, b" refused ", tally.refused);
    add(&mut text, b" live ", live);
    add(&mut text, b" @", step);
    text.push(b'\n');
    text
}

/// Adds a word and a number.
fn add(text: &mut ArrayVec<u8, LONGEST>, word: &[u8], number: u64)
    requires { array_vec_len text.old + length word.now + 20 ≤ 256 }
    ensures added { text.new.items ≡ text.old.items ++ word.now ++ decimal number }
    ensures longer { array_vec_len text.new ≤ array_vec_len text.old + length word.now + 20 }
{
    let mut buffer = Buffer::new();
    text.try_extend_from_slice(word).unwrap();
    text.try_extend_from_slice(buffer.format(number).as_bytes())
        .unwrap();
}
