// How often listeners have heard.
ghost use Rattle.std.specs.Prelude.{◌≡◌, ◌<◌, ◌++◌, OnOk, OnErr, IfSome, slice_get};
ghost use Rattle.base_model.specs.Faults.{HasCause};
ghost use Rattle.apei_notify.specs.{Chains.boxed, Telling.counts_of};
ghost use Rattle.ghes_hub.specs.{Hubs.sources_in, Seen.seen};
ghost use Rattle.hub_script.specs.{Plays.listed, Replies.words_of_heard, Replies.reply_line};
ghost use Rattle.script_text.specs.Shown.{IsPartWritten};

use crate::reply::end_line;
use apei_bytes::{Sink, SinkFault, write_all};
use apei_notify::Listener;
use ghes_hub::Hub;
use script_text::Reply;

/// Shows how often each listener of a source has heard of an error. However many they are, their counts take no memory.
pub fn show_heard<O: Sink>(
    hub: &Hub,
    source: u32,
    reply: &mut Reply,
    out: &mut O,
) -> Result<(), SinkFault>
    requires { source < sources_in (seen hub.now) }
    ensures all { OnOk result (IfSome (slice_get (seen hub.now).chains source) (λ members. O.tells
        → O.written out.new ≡ O.written out.old ++ reply_line (words_of_heard (counts_of (boxed hearing)
        (listed members))))) }
    ensures part { OnErr result (IfSome (slice_get (seen hub.now).chains source) (λ members. O.tells
        → IsPartWritten (reply_line (words_of_heard (counts_of (boxed hearing) (listed members)))) (O.written out.old)
        (O.written out.new))) }
    ensures cause { HasCause (O.faults out.old) (O.faults out.new) result }
{
    reply.begin(b"heard");
    'hearing: for at in 0..hub.listeners(source) {
        reply.make_room(out)?;
        reply.add(b" ");
        reply.add_number(hub.heard(source, at));
    }
    end_line(reply);
    write_all(out, reply.text())
}
