//! What Linux will not take of a table that is as the standard says: its drivers' checks of an entry (Linux 6.12, drivers/acpi/apei).
#![tactic(auto)]

mod bert;
mod erst;
mod hest;
mod reasons;
mod registers;

pub use bert::region_refusal;
pub use erst::instruction_refusal;
pub use hest::source_refusal;
pub use reasons::{Reason, Refusal};
