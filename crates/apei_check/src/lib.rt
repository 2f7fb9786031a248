//! The check of a script of tables, error records and error status blocks, line by line.
//!
//! `text` says which lines of an item are shown and writes them, `tables` and `frames` show the items of their kinds, and `check` goes
//! over the lines of a script.
#![tactic(auto)]

mod check;
mod frames;
mod item;
mod laws;
mod tables;
mod text;

pub use check::check_script;
pub use frames::{check_block, check_record};
pub use laws::{
    bert_lines_are_one_list, block_lines_are_one_list, erst_lines_are_one_list,
    hest_lines_are_one_list, lines_have_one_text, record_lines_are_one_list,
};
pub use tables::{check_bert, check_erst, check_hest};
pub use text::{CheckStop, Show};
