//! Common Platform Error Records (UEFI 2.8 Appendix N): a record's bytes and its meaning, both ways, and records in a stream.
#![tactic(auto)]

mod error;
mod fed;
mod heads;
mod mark;
mod names;
mod pieces;
mod reader;
mod record;
mod writer;

pub use apei_bytes::NoRoom;
pub use error::FrameError;
pub use fed::Fed;
pub use heads::{RecordHead, SectionHead};
pub use mark::stamp;
pub use names::{notification_name, section_name, severity_name};
pub use pieces::{Frames, frames_in};
pub use reader::FrameReader;
pub use record::{HEADER, ID_AT, LENGTH_AT, Record, Section, one_end};
pub use writer::RecordWriter;
