//! The language of scripts: its lines, the column at which a text leaves them, and the words of refusals.
#![tactic(auto)]

mod check_line;
mod digits;
mod laws;
mod refusal;
mod refusals;
mod reply;
mod script_line;
mod turns;

pub use check_line::CheckLine;
pub use digits::{decode, decode_line};
pub use laws::{a_text_means_its_line, one_check_column, one_check_line, one_column, one_line};
pub use refusal::Refusal;
pub use reply::{Reply, word_of};
pub use script_line::{BadLine, ScriptLine};
pub use turns::side_of;
