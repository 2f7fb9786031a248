//! Error status blocks (ACPI 6.4, 18.3.2.7.1), and the table that tells where a boot's lie (18.3.1).
#![tactic(auto)]

mod block;
mod entry;
mod error;
mod names;
mod region;
mod table;
mod writer;

pub use apei_bytes::NoRoom;
pub use block::{Block, one_end};
pub use entry::{DataEntry, EntryHead};
pub use error::BlockError;
pub use names::severity_name;
pub use region::{RegionFull, lay, take, walks_the_list, what_is_laid_is_the_list};
pub use table::Bert;
pub use writer::BlockWriter;
