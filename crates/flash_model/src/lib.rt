//! Flash memory as the store meets it: a trait for real flash, and a simulated one that can lose power in any change.
#![tactic(auto)]

mod content;
mod counts;
mod cut;
mod flash;
mod geometry;
mod past;
mod power;
mod ranges;
mod sim_flash;
pub mod spans;
mod tear;

pub use counts::next_count;
pub use cut::Cut;
pub use flash::{Flash, FlashFailed};
pub use geometry::{BadGeometry, Geometry, erased};
pub use past::{Before, Past};
pub use ranges::{copy_range, fill_range, put_range};
pub use sim_flash::SimFlash;
pub use tear::Tear;
