//! What the command lines of the programs have in common: the words of the system, the command that clap reads, what it reads of the words,
//! and how a program says how its run ended.
#![tactic(auto)]

mod command;
mod ends;
mod error;
mod matches;
mod system;

pub use command::{bare, option};
pub use ends::end;
pub use error::WordsError;
pub use matches::{matches_in, text};
pub use system::words;
