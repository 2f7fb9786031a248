//! A session with a firmware: one table, and one command after another, none of which makes an access itself.
#![tactic(auto)]

mod demands;
mod errors;
mod orders;
mod sessions;
mod works;

pub use demands::WorkDemand;
pub use errors::{SessionError, WorkError};
pub use orders::Order;
pub use sessions::Session;
pub use works::Work;
