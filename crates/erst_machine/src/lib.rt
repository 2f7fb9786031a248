//! The machine: the device over a record store, its log range, the handover, and the memory between them.
#![tactic(auto)]

mod accesses;
mod areas;
mod boot;
mod contents;
pub mod entries;
mod errors;
mod laws;
mod machine;
mod tables;

pub use areas::{Area, BOOT_ERRORS, Location, Register, SCRATCH};
pub use errors::{BootError, BootRefused, FatalError};
pub use laws::{
    accesses_keep_a_machine, any_accesses_are_shown, any_events_are_shown,
    every_access_finds_its_bytes, whatever_happens_is_one_list,
};
pub use machine::Machine;
pub use tables::own_header;
