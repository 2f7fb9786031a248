//! The fields of a binary structure, each with its name and with what stands in it, as text or as JSON; and the standards' tables of fields.
//!
//! `field` and `layout` say where fields stand and how they are shown, `value` and `json` write one value, `style` one field, `walk` those of a body,
//! and `parts` a body with the parts that repeat in it. The other modules are the tables: those of ACPI, and those of the sections of error records
//! (UEFI 2.8, appendix N).
#![tactic(auto)]

mod arm;
mod blocks;
mod checks;
mod digits;
mod erst;
mod field;
mod generic;
mod headers;
mod ia32;
mod json;
mod layout;
mod linux;
mod memory;
mod names;
mod number;
mod parts;
mod pci;
mod pcie;
mod plain;
mod processor;
mod records;
mod register;
mod remapping;
mod section_rows;
mod sections;
mod sources;
mod style;
mod table_rows;
mod time;
mod told;
mod value;
mod walk;

pub use blocks::{block_status, data_entry};
pub use digits::{add_decimal, add_digits, add_high_first};
pub use erst::{erst_entry, erst_header};
pub use field::{Field, Name, Shape};
pub use headers::{bert_fields, hest_header, table_header};
pub use json::Json;
pub use layout::{Content, Count, Inner, Key, Layout, Parts, Size};
pub use parts::add_layout;
pub use plain::Plain;
pub use records::{record_header, section_descriptor};
pub use sections::{SectionKind, fields_of, section_kind, section_layout};
pub use sources::source_layout;
pub use style::{Location, Mark, Style};
pub use time::{add_date, add_stamp};
pub use told::{NamedNumber, number_told, text_told};
pub use walk::add_fields;
