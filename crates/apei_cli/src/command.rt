// The command that clap reads: the job and the options.
ghost use Rattle.std.specs.Prelude.{◌≡◌, IfOk};
ghost use Rattle.clap.specs.Words.{app_of};
ghost use Rattle.apei_cli.specs.CommandWords.{the_command};

use crate::setting::SETTINGS;
use clap::{Arg, Command};
use clap_words::{bare, option};
use std::alloc::{AllocError, Global};

/// The name of the one positional.
pub(crate) const JOB: &str = "job";

/// One positional, the job, and options with one value each.
pub(crate) fn command<'a>(alloc: Global) -> Result<Command<'a>, AllocError>
    ensures { IfOk result (λ command. app_of command ≡ the_command) }
{
    let mut command = bare(alloc, "apei").arg(Arg::new(alloc, JOB).required(true))?;
    for setting in SETTINGS {
        command = command.arg(option(alloc, setting.name()))?;
    }
    Ok(command)
}
