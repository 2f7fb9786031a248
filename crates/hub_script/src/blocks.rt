// The line of a block that a reader took.
ghost use Rattle.std.specs.Prelude.{◌≡◌, ◌≤◌, length, OnOk, OnErr, ◌++◌, codes, decimal};
ghost use Rattle.base_model.specs.Bytes.{number_at};
ghost use Rattle.base_model.specs.Faults.{HasCause};
ghost use Rattle.hub_script.specs.Replies.{words_of_block, reply_line};
ghost use Rattle.script_text.specs.Shown.{IsPartWritten};

use crate::reply::end_line;
use apei_bytes::{Sink, SinkFault, get_u32, write_all};
use script_text::Reply;

/// The offset of a block's severity.
const SEVERITY: usize = 16;

/// The bytes whose digits are written at once.
const PIECE: usize = 64;

/// Writes the line of a block.
pub fn show_block<O: Sink>(
    reply: &mut Reply,
    source: u32,
    block: &[u8],
    out: &mut O,
) -> Result<(), SinkFault>
    requires { 20 ≤ length block.now }
    ensures all { OnOk result (O.tells → O.written out.new
        ≡ O.written out.old ++ reply_line (words_of_block source block.now)) }
    ensures part { OnErr result (O.tells → IsPartWritten (reply_line (words_of_block source block.now))
        (O.written out.old) (O.written out.new)) }
    ensures cause { HasCause (O.faults out.old) (O.faults out.new) result }
{
    begin_block(reply, source, block);
    let mut at = 0;
    'showing: while at < block.len() {
        reply.make_room(out)?;
        let end = block.len().min(at + PIECE);
        reply.add_hex(&block[at..end]);
        at = end;
    }
    end_line(reply);
    write_all(out, reply.text())
}

/// The words of a block's line before its digits.
fn begin_block(reply: &mut Reply, source: u32, block: &[u8])
    requires { 20 ≤ length block.now }
    ensures words { reply.new ≡ codes "block " ++ decimal source ++ codes " " ++ decimal (number_at block.now 16 4)
        ++ codes " " ++ decimal (length block.now) ++ codes " " }
    ensures short { length reply.new ≤ 70 }
{
    reply.begin(b"block ");
    reply.add_number(u64::from(source));
    reply.add(b" ");
    reply.add_number(u64::from(get_u32(block, SEVERITY)));
    reply.add(b" ");
    reply.add_number(block.len() as u64);
    reply.add(b" ");
}
