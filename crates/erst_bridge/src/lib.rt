//! The bridge: each block that the reader takes is stored before it is acknowledged. What power lost at any flash step shows of its turns,
//! and that over two machines that are equivalent it does the same.
#![tactic(auto)]

mod bridge;
mod durability;
mod equivalence;
mod events;
mod laws;
mod made;
mod record;
mod stages;
mod turns;

pub use bridge::Bridge;
pub use durability::{
    a_kept_block_has_its_cause, a_stored_block_stays, bridged_turns_are_one_list,
    bridged_turns_are_shown, bridged_turns_show_a_prefix, what_is_acknowledged_was_stored,
};
pub use equivalence::{
    equivalent_machines_bridge_alike, equivalent_machines_make_turns_alike,
    equivalent_machines_turn_alike,
};
pub use events::BridgeEvent;
pub use laws::{a_bridge_stays_in_step, a_bridged_block_is_a_record};
pub use made::{MadeTurn, SideTurn};
pub use turns::{turn_side, turn_sides};
