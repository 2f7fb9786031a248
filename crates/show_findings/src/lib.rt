//! What is found of an item before its fields are shown: what it is, where its parts stand, and the sentence that says what happened.
#![tactic(auto)]

mod bodies;
mod bytes;
mod entries;
mod error_section;
mod faults;
mod items;
mod kinds;
mod labels;
mod names;
mod phrases;
mod records;
mod sections;
mod shapes;
mod signatures;
mod sources;
mod subjects;
mod tables;
mod times;
mod words;
mod worst;

pub use bodies::{add_dmesg, add_machine_check};
pub use bytes::{seen_at, seen_u8, seen_u16, seen_u32, seen_u64};
pub use entries::{DataEntry, data_entry_at, instruction_at};
pub use faults::{Fault, fault_of};
pub use items::{Item, item_len};
pub use kinds::{FileKind, kind_behind, kind_of};
pub use records::{add_block, add_record, is_of_linux};
pub use sections::{Section, section_at};
pub use shapes::is_empty_block;
pub use sources::{Source, source_at};
pub use subjects::section_title;
pub use tables::add_table;
pub use worst::{Worst, worst_entry, worst_section};
