// Ends of replies.
ghost use Rattle.std.specs.Prelude.{◌≡◌, ◌+◌, ◌≤◌, ◌++◌, length, OnOk, OnErr};
ghost use Rattle.base_model.specs.Faults.{HasCause};
ghost use Rattle.script_text.specs.Shown.{IsPartWritten};
ghost use Rattle.hub_script.specs.RefusalWords.{words_of_refusal, HasWords};
ghost use Rattle.hub_script.specs.Replies.{refused, reply_line};

use crate::refusals::HubRefusal;
use apei_bytes::{Sink, SinkFault, write_all};
use script_lines::LineText;
use script_text::{Refusal, Reply};

/// Ends the line of a reply.
pub fn end_line(reply: &mut Reply)
    requires { length reply.old + 1 ≤ 131264 }
    ensures { reply.new ≡ reply_line reply.old }
{
    reply.add(b"\n");
}

/// Makes it the line of a refusal.
pub fn refuse(reply: &mut Reply, why: &HubRefusal)
    requires { HasWords why.now }
    ensures { reply.new ≡ reply_line (refused (words_of_refusal why.now)) }
{
    let mut text = LineText::new();
    why.add_to(&mut text);
    reply.begin(b"refused ");
    reply.add(text.bytes());
    end_line(reply);
}

/// Writes the line of a refusal.
pub fn write_refusal<O: Sink>(
    reply: &mut Reply,
    why: &HubRefusal,
    out: &mut O,
) -> Result<(), SinkFault>
    requires { HasWords why.now }
    ensures all { OnOk result (O.tells → O.written out.new
        ≡ O.written out.old ++ reply_line (refused (words_of_refusal why.now))) }
    ensures part { OnErr result (O.tells → IsPartWritten (reply_line (refused (words_of_refusal why.now)))
        (O.written out.old) (O.written out.new)) }
    ensures cause { HasCause (O.faults out.old) (O.faults out.new) result }
{
    refuse(reply, why);
    write_all(out, reply.text())
}
