//! Numbers in bytes, the fields of a binary format, read at their place or written one behind another, and the streams that bytes come
//! from and go to.
#![tactic(auto)]

mod adapters;
mod guid;
mod in_memory;
mod memory;
mod numbers;
mod read;
mod room;
mod streams;
mod write;

pub use adapters::{StdSink, StdSource};
pub use guid::Guid;
pub use in_memory::{MemSink, MemSource};
pub use memory::OutOfMemory;
pub use numbers::{get_u16, get_u32, get_u64, put_u16, put_u32, put_u64};
pub use read::{array_at, byte_at, bytes_at, guid_at};
pub use room::{NoRoom, room_for};
pub use streams::{ReadFailed, Sink, SinkFault, Source, WriteFailed, write_all};
pub use write::{write_array, write_bytes, write_guid, write_u8, write_u16, write_u32, write_u64};
