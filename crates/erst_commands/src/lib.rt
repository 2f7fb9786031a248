//! What a client's commands by the machine's own table answer, as the record map's; and that two machines that are equivalent do the same.
#![tactic(auto)]

mod equivalence;
mod laws;

pub use equivalence::{
    a_region_has_one_list, equivalent_devices_act_alike, equivalent_flashes_boot_alike,
    equivalent_machines_answer_alike, equivalent_machines_ask_alike,
    equivalent_machines_attach_alike, equivalent_machines_count_alike,
    equivalent_machines_end_sequences_alike, equivalent_machines_go_on_alike,
    equivalent_machines_hand_over_alike, equivalent_machines_name_alike,
    equivalent_machines_read_alike, equivalent_machines_run_alike, equivalent_machines_show_alike,
    equivalent_machines_stay_alike, equivalent_machines_write_alike,
};
pub use laws::{
    a_clear_is_the_maps, a_client_reads_as_the_map, a_client_writes_as_the_map,
    a_count_is_the_maps, a_dummy_write_changes_nothing, a_framed_record_is_shown_whole,
    a_next_is_the_maps, a_read_is_the_maps, a_write_is_the_maps, attaching_never_fails,
    enough_steps_are_enough, enough_steps_go_through, hardware_has_its_cause,
    own_programs_run_through,
};
