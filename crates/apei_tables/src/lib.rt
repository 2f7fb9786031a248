//! What the tables of ACPI have in common: the header with its sum (ACPI 6.4, 5.2.6), and generic addresses (5.2.3.2).
#![tactic(auto)]

mod bytes;
mod headers;
mod registers;
mod sealing;
mod structure;
mod widths;

pub use bytes::sum_of;
pub use headers::{Header, TableError};
pub use registers::{BadRegister, Place, Register};
pub use sealing::seal;
pub use structure::Gas;
pub use widths::Width;
