//! Shows what the image of a record store's flash holds, and changes nothing: `apei-look PATH`. It writes to standard
//! output, and what it refuses to standard error.
#![tactic(auto)]

mod command;
mod digits;
mod guid;
mod host;
mod image;
mod image_file;
mod json;
mod json_records;
mod json_slots;
mod kind;
mod looking;
mod number;
mod options;
mod picture;
mod places;
mod records;
mod showing;
mod slots;
mod status;
mod text;
mod time;
mod unread;
mod values;

use crate::host::System;
use crate::looking::look;
use crate::options::options_of;
use crate::status::Status;
use clap_words::{WordsError, end, words};
use std::process::ExitCode;

fn main(rt: HostRuntime) -> ExitCode {
    let status = run(&rt).unwrap_or_else(|error| Status::from(error));
    end(&rt, &status, status.number())
}

// Does what the words behind the program's name ask for.
fn run(rt: &HostRuntime) -> Result<Status, WordsError> {
    let options = options_of(rt.alloc(), &words(rt)?)?;
    Ok(look(&mut System::new(rt), rt.alloc(), &options))
}
