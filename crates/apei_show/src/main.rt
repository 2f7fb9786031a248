//! Shows what files of hardware errors hold: `apei-show FILE..`. It writes to standard output, and what it can't read to standard error.
#![tactic(auto)]

ghost use Rattle.std.specs.Prelude.{◌≡◌};
ghost use Rattle.apei_show.specs.Forms.{shown_as};

mod command;
mod files;
mod options;
mod output;
mod shown;
mod source;
mod status;
mod values;

use crate::files::System;
use crate::options::{Color, Form, Options, options_of};
use crate::output::Output;
use crate::shown::show_bytes;
use crate::source::read_file;
use crate::status::Status;
use clap_words::{WordsError, end, words};
use show_items::{Form as Shown, Manner};
use smbios::table_in;
use std::io::IsTerminal;
use std::process::ExitCode;

fn main(rt: HostRuntime) -> ExitCode {
    let status = run(&rt).unwrap_or_else(|error| Status::from(error));
    end(&rt, &status, status.number())
}

// Does what the words behind the program's name ask for.
fn run(rt: &HostRuntime) -> Result<Status, WordsError> {
    let options = options_of(rt.alloc(), &words(rt)?)?;
    let mut files = System::new(rt);
    let smbios = match smbios_of(rt, &mut files, &options) {
        Ok(bytes) => bytes,
        Err(status) => return Ok(status),
    };
    let table = match &smbios {
        Some(bytes) => Some(table_in(bytes)),
        None => None,
    };
    let manner = manner_of(rt, &options, table);
    Ok(show_files(rt, &mut files, &options, manner))
}

// How items are shown; the parts that they are about are named by the structures of a table, where there is one.
fn manner_of<'a>(rt: &HostRuntime, options: &Options, smbios: Option<&'a [u8]>) -> Manner<'a> {
    let colored = match options.color {
        Color::Always => true,
        Color::Never => false,
        Color::Auto => rt.stdout().is_terminal(),
    };
    Manner {
        form: shown_as(options.form),
        places: options.bytes,
        colored,
        named: options.files.len() > 1,
        smbios,
    }
}

// The form that the words ask for.
fn shown_as(form: Form) -> Shown
    ensures { result ≡ shown_as form }
{
    match form {
        Form::Text => Shown::Text,
        Form::Brief => Shown::Brief,
        Form::Json => Shown::Json,
    }
}

// The bytes of the file of SMBIOS structures, where one is given.
fn smbios_of(
    rt: &HostRuntime,
    files: &mut System<'_>,
    options: &Options,
) -> Result<Option<Vec<u8>>, Status> {
    match &options.smbios {
        Some(path) => Ok(Some(read_file(rt, files, path.as_str())?)),
        None => Ok(None),
    }
}

// Shows the files, one after another. One that can't be read is named, and the others are shown all the same.
fn show_files(
    rt: &HostRuntime,
    files: &mut System<'_>,
    options: &Options,
    manner: Manner<'_>,
) -> Status {
    let mut output = Output::new(rt.stdout());
    let mut status = Status::Done;
    let mut is_first = true;
    for path in options.files.iter() {
        let path = path.as_str();
        let found = match read_file(rt, files, path) {
            Ok(bytes) => Status::of_file(show_bytes(
                &mut output,
                rt.alloc(),
                path,
                &bytes,
                manner,
                is_first,
            )),
            Err(status) => status,
        };
        is_first = false;
        match found {
            Status::Done => (),
            Status::Bad if !options.strict => (),
            Status::Bad | Status::Unread => status = status.worse(found),
            other => return other,
        }
    }
    status
}
