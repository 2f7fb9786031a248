//! Theorems over the lines of a script that were played one after another.
#![tactic(auto)]

mod history;

pub use history::{
    booted_scripts_play_alike, each_line_is_the_maps, equivalent_machines_make_equivalent_players,
    kept_blocks_have_causes, lines_are_one_list, lines_are_shown, lines_keep_a_machine,
    lines_keep_in_step, scripts_play_alike, stored_blocks_stay,
};
