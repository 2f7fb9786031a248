//! Whether bytes begin with an ACPI error table, an error record or an error status block, and where its parts stand.
#![tactic(auto)]

mod berts;
mod blocks;
mod ersts;
mod faults;
mod hests;
mod items;
mod parts;
mod records;

pub use faults::{Fault, FaultKind, ItemError};
pub use items::{Item, check, part_at};
pub use parts::Part;
