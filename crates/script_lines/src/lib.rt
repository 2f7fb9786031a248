//! The lines of a script: their grammar, their text, how they are read, and the one relation of lines that were played one after another.
#![tactic(auto)]

mod ending;
mod keywords;
mod laws;
mod lengths;
mod lines;
mod parts;
mod text;

pub use ending::ScriptEnd;
pub use keywords::{Keyword, common_len, keyword_of};
pub use laws::lines_are_read_in_order;
pub use lengths::{LONGEST_BYTES, LONGEST_LINE};
pub use lines::{LineReader, LineStop, MAX_SCRIPT};
pub use parts::{end, number, pairs, two_numbers};
pub use text::LineText;
