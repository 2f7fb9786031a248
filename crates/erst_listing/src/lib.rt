//! A listing of the identifiers of a firmware's records: each once, whatever the firmware does after the last one.
#![tactic(auto)]

mod errors;
mod laws;
mod listing;

pub use errors::ListError;
pub use laws::{a_listing_ends, a_listing_has_all, a_listing_has_each_once, a_told_listing_lists};
pub use listing::Listing;
