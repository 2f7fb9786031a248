//! A map from identifiers to records on flash that survives power lost at any step.
#![tactic(auto)]

mod draft;
mod errors;
mod filling;
mod index;
mod laws;
mod opening;
mod preparing;
mod reading;
mod starting;
mod stepping;
mod store;
mod work;

pub use draft::{Draft, Stage, Step};
pub use errors::{StoreError, StoreRefused};
pub use laws::a_walk_finds_each_identifier;
pub use preparing::{first_stage, prepare, publish};
pub use record_slots::ScanError;
pub use store::Store;
