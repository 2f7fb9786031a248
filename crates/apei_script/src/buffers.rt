// The memory in which lines are carried out.
ghost use Rattle.std.specs.Prelude.{◌≡◌, ◌≤◌, [], vec_len, vec_capacity, IfOk};
ghost use Rattle.script_lines.specs.declared.lengths.TheConstants.{LONGEST_BYTES};

use apei_bytes::OutOfMemory;
use erst_bridge::MadeTurn;
use ghes_ack::Event;
use script_lines::LONGEST_BYTES;
use script_text::Reply;
use std::alloc::Global;

/// The most turns of a line.
const MOST_TURNS: usize = 4096;

/// The bytes that a line stands for or shows, its reply, the events of its turns, and what they did where the bridge was on.
#[derive(Drop)]
pub struct Buffers {
    pub bytes: Vec<u8>,
    pub reply: Reply,
    pub events: Vec<Event>,
    pub made: Vec<MadeTurn>,
    ghost size: { vec_len bytes ≡ LONGEST_BYTES },
    ghost room: { 4096 ≤ vec_capacity events },
    ghost room_made: { 4096 ≤ vec_capacity made },
}

impl Buffers {
    /// All the memory that lines need, but for that of tables.
    pub fn new(alloc: Global) -> Result<Buffers, OutOfMemory>
        ensures { IfOk result (λ buffers. buffers.reply ≡ []) }
    {
        Ok(Buffers {
            bytes: vec![in alloc; 0u8; LONGEST_BYTES]?,
            reply: Reply::new(alloc)?,
            events: Vec::with_capacity(alloc, MOST_TURNS)?,
            made: Vec::with_capacity(alloc, MOST_TURNS)?,
        })
    }
}
