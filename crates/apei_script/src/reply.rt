// Replies that show a number or bytes, and ends of replies.
ghost use Rattle.std.specs.Prelude.{◌≡◌, ◌+◌, ◌≤◌, ◌++◌, length, codes, decimal};
ghost use Rattle.erst_commands.specs.Writes.{id_of};
ghost use Rattle.hex.specs.Hex.{encode_lower};
ghost use Rattle.apei_script.specs.Replies.{IsMade};
ghost use Rattle.apei_script.specs.Words.{words_of_block, reply_at};

use apei_bytes::{get_u32, get_u64};
use cper_frame::ID_AT;
use script_text::Reply;

/// The offset of a block's severity.
const SEVERITY: usize = 16;

/// Makes it a word and a number.
pub fn put_number(reply: &mut Reply, word: &[u8], n: u64)
    requires { length word.now ≤ 64 }
    ensures { IsMade reply.new (word.now ++ decimal n) }
{
    reply.begin(word);
    reply.add_number(n);
}

/// Makes it the words of a record.
pub fn put_record(reply: &mut Reply, bytes: &[u8])
    requires least { 128 ≤ length bytes.now }
    requires most { length bytes.now ≤ 65536 }
    ensures { IsMade reply.new (codes "record " ++ decimal (id_of bytes.now) ++ codes " "
        ++ decimal (length bytes.now) ++ codes " " ++ encode_lower bytes.now) }
{
    put_bytes(reply, b"record ", get_u64(bytes, ID_AT), bytes);
}

/// Makes it the words of an error status block.
pub fn put_block(reply: &mut Reply, block: &[u8])
    requires least { 20 ≤ length block.now }
    requires most { length block.now ≤ 65536 }
    ensures { IsMade reply.new (words_of_block block.now) }
{
    put_bytes(reply, b"block ", u64::from(get_u32(block, SEVERITY)), block);
}

/// Makes it a word and a number, and the length and the digits of some bytes.
fn put_bytes(reply: &mut Reply, word: &[u8], n: u64, bytes: &[u8])
    requires short { length word.now ≤ 16 }
    requires most { length bytes.now ≤ 65536 }
    ensures { IsMade reply.new (word.now ++ decimal n ++ codes " " ++ decimal (length bytes.now) ++ codes " " ++
        encode_lower bytes.now) }
{
    reply.begin(word);
    reply.add_number(n);
    reply.add(b" ");
    reply.add_number(bytes.len() as u64);
    reply.add(b" ");
    reply.add_hex(bytes);
}

/// Ends a reply with the flash step at which its line ended.
pub fn end_line(reply: &mut Reply, step: u64)
    requires { length reply.old + 23 ≤ 131264 }
    ensures { reply.new ≡ reply_at step reply.old }
{
    reply.add(b" @");
    reply.add_number(step);
    reply.add(b"\n");
}
