//! Error status blocks and error records around one section, made of plain fields.
#![tactic(auto)]

mod blocks;
mod error;
mod given;
mod records;
mod severity;

pub use blocks::{BlockFields, make_block};
pub use error::MakeError;
pub use records::{RecordFields, make_record};
pub use severity::Severity;
