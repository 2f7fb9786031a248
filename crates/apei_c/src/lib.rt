//! The error record device, error sources, a boot error region, a client, and the checks and makers of items for C: a static library, whose header is `include/apei.h`.
#![tactic(auto)]

mod boot;
mod boot_handle;
mod boot_owner;
mod boxes;
mod buffers;
mod calls;
mod checks;
mod client;
mod client_demands;
mod client_handle;
mod client_owner;
mod client_status;
mod client_structs;
mod devices;
mod failing;
mod formats;
mod guest_accesses;
mod handle;
mod maker_structs;
mod makers;
mod memory;
mod numbers;
mod openings;
mod owners;
mod saving;
mod settling;
mod source_calls;
mod source_setups;
mod source_status;
mod source_structs;
mod sources;
mod sources_handle;
mod sources_owner;
mod status;
mod structs;

pub use boot_handle::BootHandle;
pub use client_handle::ClientHandle;
pub use client_structs::{ClientDemand, ClientRange};
pub use handle::Handle;
pub use maker_structs::{BlockNumbers, RecordNumbers};
pub use source_structs::{GuestAccess, RegisterNumbers, SourceNumbers};
pub use sources_handle::SourcesHandle;
pub use status::Status;
pub use structs::{ItemFault, ItemPart, MediumChange, MediumGeometry, WindowAddresses};
