//! The part of a machine that a section of an error record names: by the handle of a memory module or of a memory array, or by the number of
//! a slot (UEFI 2.8, sections N.2.5 to N.2.7), among the structures of a System Management BIOS table (DSP0134, 3.6).
#![tactic(auto)]

mod arrays;
mod numbers;
mod parts;

pub use arrays::MemoryArray;
pub use numbers::Naming;
pub use parts::{Card, Module, Slot, card_of, module_of, slot_of};
