// What a check of an error record (UEFI 2.8, appendix N) or of an error status block (ACPI 6.4, 18.3.2.7) shows.

mod block;
mod record;

pub use block::check_block;
pub use record::check_record;
