// The memory in which lines are played.
ghost use Rattle.std.specs.Prelude.{◌≡◌, [], vec_len, IfOk};
ghost use Rattle.script_lines.specs.declared.lengths.TheConstants.{LONGEST_BYTES};

use apei_bytes::OutOfMemory;
use script_lines::LONGEST_BYTES;
use script_text::Reply;
use std::alloc::Global;

/// The bytes that a line stands for, its reply, and the events of its turns.
#[derive(Drop)]
pub struct Session {
    pub bytes: Vec<u8>,
    pub reply: Reply,
    pub events: Reply,
    ghost size: { vec_len bytes ≡ LONGEST_BYTES },
}

impl Session {
    /// All the memory that lines need, but for that of a table and its hub.
    pub fn new(alloc: Global) -> Result<Session, OutOfMemory>
        ensures { IfOk result (λ session. (session.reply ≡ []) × (session.events ≡ [])) }
    {
        Ok(Session {
            bytes: vec![in alloc; 0u8; LONGEST_BYTES]?,
            reply: Reply::new(alloc)?,
            events: Reply::new(alloc)?,
        })
    }
}
