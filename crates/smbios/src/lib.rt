//! The structures of a System Management BIOS table (DMTF DSP0134, 3.6), which name the parts of a machine: its memory modules and its
//! slots. Each length of the table is distrusted, and a table that is cut off is read as far as it goes.
#![tactic(auto)]

mod files;
mod finding;
mod memory;
mod structures;
mod texts;

pub use files::table_in;
pub use finding::{Wanted, find};
pub use memory::{MemoryDevice, memory_device};
pub use structures::{Found, Structure, first_structure};
