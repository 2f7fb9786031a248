//! An image of a flash: what the first sector of a medium says, which geometry fits, and what each slot holds.
#![tactic(auto)]

mod checksum;
mod files;
mod finding;
mod firsts;
mod flash;
mod format;
mod further;
mod header;
mod heads;
mod kinds;
mod lives;
mod looks;
mod medium_laws;
mod reading;
mod survey;
mod totals;

pub use checksum::word_sum;
pub use files::{FileKind, FileView, view_file};
pub use finding::find;
pub use flash::read_image;
pub use format::{Content, FormatChange, format_change};
pub use header::{FirstSector, MediumError, VERSION, first_sector, geometry_of, medium_size};
pub use heads::{Guess, best_guess, count_heads};
pub use kinds::SlotKind;
pub use medium_laws::{a_cut_format_leaves_no_medium, a_format_makes_a_medium};
pub use reading::record_at;
pub use record_slots::{Look, ScanError};
pub use survey::{SlotView, survey_slots};
pub use totals::{Totals, count_slots};
