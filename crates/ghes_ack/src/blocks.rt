// The blocks of a handover, and the turns that they go through.
mod firmware;
mod reader;

use crate::maps::HandoverMap;
pub use firmware::{fill_in_place, firmware_run};
pub use reader::{copy_in_place, reader_run};

pub type Blocks = crate::Blocks<HandoverMap>;
