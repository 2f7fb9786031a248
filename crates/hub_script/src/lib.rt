//! The language of scripts of several error sources, and what plays them on a hub: the lines, the column at which a text leaves them,
//! their replies, and the words of refusals.
#![tactic(auto)]

mod blocks;
mod heard;
mod hub_line;
mod laws;
mod parts;
mod player;
mod refusals;
mod reply;
mod script;
mod session;
mod turns;

pub use hub_line::HubLine;
pub use laws::{one_column, one_line};
pub use player::{HubPlayer, HubStop};
pub use refusals::HubRefusal;
pub use script::serve_script;
