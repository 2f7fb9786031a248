//! A second table for the machine, whose own programs move the record between a buffer and the machine's log range, and a client's
//! commands by it, as the record map's.
#![tactic(auto)]

mod entries;
mod laws;
mod moves;
mod tables;

pub use laws::{
    a_clear_is_the_maps, a_client_reads_as_the_map, a_client_writes_as_the_map,
    a_count_is_the_maps, a_dummy_write_changes_nothing, a_next_is_the_maps,
    a_sequence_is_the_machines_own, attaching_never_fails, commands_need_exactly,
    enough_steps_are_enough, enough_steps_go_through, hardware_has_its_cause,
    power_lost_leaves_one_of_two,
};
pub use moves::a_move_copies;
pub use tables::shadow_table;
