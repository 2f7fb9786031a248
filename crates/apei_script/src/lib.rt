//! The player of scripts: each line goes to the machine, most of them through a client and the programs of its table.
#![tactic(auto)]

mod blocks;
mod bridged;
mod buffers;
mod clients;
mod commands;
mod events;
mod laws;
mod machine_refusal;
mod own;
mod player;
mod refusals;
mod reply;
mod session;
mod tables;

pub use laws::{
    a_failed_restart_has_happened, a_line_is_the_maps, a_line_keeps_a_machine,
    events_take_their_changes, words_tell_the_refusal,
};
pub use own::own_client;
pub use player::{PlayStop, Player, PlayerRefused};
