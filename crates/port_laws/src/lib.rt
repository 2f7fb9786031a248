//! Laws on the port: what power lost at its medium leaves, what a client of its table is answered, and that equivalent ports do alike.
#![tactic(auto)]

mod commands;
mod durability;
mod equivalence;
mod failures;
mod lives;
mod settling;

pub use commands::{
    a_clear_is_the_maps, a_client_reads_as_the_map, a_client_writes_as_the_map,
    a_count_is_the_maps, a_dummy_write_changes_nothing, a_listing_comes_round,
    a_listing_has_all_records, a_listing_rises, a_read_is_the_maps, a_write_is_the_maps,
    accesses_leave_the_windows, an_access_is_the_machines, attaching_never_fails,
    enough_steps_go_through, hardware_has_its_cause, next_goes_round, programs_run_as_the_machines,
};
pub use durability::{
    a_lost_medium_shows_a_prefix, a_medium_keeps_step, an_opening_begins,
    lost_power_leaves_a_crash_image, records_change_by_commands,
};
pub use equivalence::{
    a_loaded_port_is_equivalent, a_saved_port_is_taken, equivalent_ports_go_on_alike,
    equivalent_ports_read_alike, equivalent_ports_reset_alike, equivalent_ports_write_alike,
};
pub use failures::{a_failed_change_is_a_loss, a_failure_begins, a_failure_is_told};
pub use lives::{
    a_life_keeps_what_was_told, a_loading_begins, a_medium_starts_a_run,
    no_fault_before_the_last_count,
};
pub use settling::a_settled_step_is_a_poll;
