//! A flash in a file, and in memory too: each change is in the file before it answers.
#![tactic(auto)]

mod file_flash;
mod image_file;
mod medium;

pub use file_flash::FileFlash;
