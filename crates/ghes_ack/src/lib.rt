//! The handover of error status blocks from firmware to operating system: the windows of memory that a block lies in, and both sides.
#![tactic(auto)]

mod blocks;
mod ends;
mod events;
mod handover;
mod laws;
mod maps;
mod pieces;
mod states;
mod station;
mod submission;
mod turns;
mod window;
mod window_blocks;
mod window_maps;

pub use ends::{
    Ends, FirmwareEnd, MayRead, MayWrite, MustAcknowledge, MustLook, MustWait, ReaderEnd, begin,
};
pub use events::{Event, Side};
pub use handover::Handover;
pub use laws::{
    a_taken_block_fits, each_side_keeps, every_list_of_calls, every_schedule, nothing_while_held,
    others_may_write_elsewhere,
};
pub use maps::HandoverMap;
pub use pieces::PIECE;
pub use states::{AwaitAck, Cleared, FirmBlock, OsBlock, OsIdle, start, stop};
pub use station::Station;
pub use submission::{SubmitError, check_block};
pub use window::BlockWindow;
pub use window_blocks::{Blocks, WAITING};
pub use window_maps::HasWindow;
