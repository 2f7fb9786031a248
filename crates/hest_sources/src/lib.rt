//! The Hardware Error Source Table (ACPI 6.4, 18.3.2): its error sources, read by the length of each.
#![tactic(auto)]

mod sources;
mod tables;

pub use sources::{Ack, Ghes, HestSource};
pub use tables::{Hest, HestError};
