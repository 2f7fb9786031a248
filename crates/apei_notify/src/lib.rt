//! Who is told of the hardware errors that the operating system took from the firmware.
#![tactic(auto)]

mod chain;
mod laws;
mod listener;
mod tally;

pub use chain::Chain;
pub use laws::heard_is_wanted;
pub use listener::Listener;
pub use tally::Tally;
