//! The error sources of one hardware error source table over one memory, each with its own listeners.
#![tactic(auto)]

mod checks;
mod clashes;
mod deals;
mod errors;
mod hub;
mod joins;
mod laws;
mod layouts;
mod plain;
mod plans;
mod source;
mod sources;

pub use errors::{HubError, HubRefused};
pub use hub::Hub;
pub use laws::{
    a_hub_from_its_opening, each_has_heard, every_list_of_calls, every_source_in_order,
};
