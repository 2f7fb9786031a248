//! The operating system's side of the Error Record Serialization Interface (ACPI 6.4, section 18.5): a client reads, writes
//! and clears a firmware's error records by running the programs of its table, and knows nothing else of the firmware.
#![tactic(auto)]

mod asking;
mod attaching;
mod client;
mod commands;
mod errors;
mod finding;
mod laws;
mod positions;
mod reading;
mod requests;
mod sequences;
mod stages;
mod writing;

pub use asking::Asking;
pub use attaching::FoundRange;
pub use client::Client;
pub use errors::{AttachError, ClientError};
pub use finding::Finding;
pub use laws::{
    a_told_attaching_ends, a_told_client_attaches, a_told_command_ends,
    a_told_command_is_a_sequence, a_told_read_is_a_read, a_told_record_ends, a_told_request_ends,
    a_told_request_is_made, a_told_write_is_a_write,
};
pub use positions::Position;
pub use reading::{ReadDemand, Reading};
pub use stages::{Command, Part, Stage};
pub use writing::{WriteDemand, Writing};
