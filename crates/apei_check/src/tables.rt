// What a check of one table shows: of an Error Record Serialization Table, a Hardware Error Source Table or a Boot Error Record Table.

mod bert;
mod erst;
mod hest;

pub use bert::check_bert;
pub use erst::check_erst;
pub use hest::check_hest;
