//! The spaces that register programs work on, and plain memory as one of them.
#![tactic(auto)]

mod bytes;
mod faults;
mod guesses;
mod laws;
mod plain;
mod spaces;
mod windows;

pub use bytes::{copy_part, get_number, get_part, put_number, put_part};
pub use faults::SpaceFault;
pub use laws::{
    an_index_tells_its_place, bytes_stand_in_order, disjoint_accesses_are_apart,
    mapped_bytes_are_found, unmapped_is_first,
};
pub use plain::Ram;
pub use spaces::Space;
pub use windows::{Window, address};
