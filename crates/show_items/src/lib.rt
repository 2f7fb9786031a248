//! Shows what a file holds, item by item: a sentence, each field by the standard's name, and what is wrong.
#![tactic(auto)]

mod blocks;
mod dumps;
mod faults;
mod files;
mod groups;
mod headers;
mod images;
mod media;
mod pages;
mod parts;
mod records;
mod refusals;
mod sequences;
mod sheet;
mod singles;
mod storage;
mod tables;
mod text;

pub use files::show_file;
pub use pages::{Pages, Stop};
pub use sheet::{Form, Manner, Sheet};
