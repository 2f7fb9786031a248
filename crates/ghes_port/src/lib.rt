//! The firmware's side of generic hardware error sources and of a boot error region, for others to embed: it tells the accesses that its owner
//! makes on the guest's memory.
#![tactic(auto)]

mod accesses;
mod boot;
mod errors;
mod laws;
mod maps;
mod overlaps;
mod registers;
mod setups;
mod source;
mod sources;
mod stages;
mod steps;
mod table;
mod writes;

pub use accesses::{Access, Outcome};
pub use boot::{BootError, BootRegion, BootStage, is_misplaced};
pub use errors::{NotReached, OpenError, SubmitError};
pub use laws::{
    a_boot_region_keeps_its_blocks, a_guest_takes_a_prefix, a_moved_source_goes_on,
    a_reset_is_a_beginning, an_access_of_another_is_elsewhere, an_access_stays_inside,
    an_acknowledgement_is_seen, each_block_is_notified_once, each_source_is_as_if_alone,
    nothing_is_overwritten, opened_sources_are_apart,
};
pub use maps::{AckRegister, SourceMap};
pub use setups::Setup;
pub use source::Source;
pub use sources::Sources;
pub use stages::{Stage, Unacknowledged};
pub use table::bert;
