//! The Error Record Serialization Table: its instruction entries, and the program that they make for an action.
#![tactic(auto)]

mod actions;
mod entries;
mod groups;
mod instructions;
mod programs;
mod tables;

pub use actions::Action;
pub use entries::Entry;
pub use instructions::Instruction;
pub use programs::Program;
pub use tables::{ErstError, ErstTable};
