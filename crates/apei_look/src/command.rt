// The command that clap reads: the options, the flags, and the path that stands by itself.
ghost use Rattle.std.specs.Prelude.{◌≡◌, IfOk, false};
ghost use Rattle.clap.specs.Words.{app_of, rule_of};
ghost use Rattle.apei_look.specs.Commands.{file_rule, flag_rule, the_command};

use clap::{Arg, ArgAction, Command};
use clap_words::{bare, option};
use std::alloc::{AllocError, Global};

// The names of the flags.
pub(crate) const JSON: &str = "json";

pub(crate) const GUESS: &str = "guess";

/// The name of the one positional, which is the image's path.
pub(crate) const FILE: &str = "file";

// The names of the options.
pub(crate) const IMAGE: &str = "image";

pub(crate) const SECTOR: &str = "sector";

pub(crate) const PER_SLOT: &str = "per-slot";

pub(crate) const SLOTS: &str = "slots";

pub(crate) const RECORD: &str = "record";

/// Two flags, a path, and options with one value each.
pub(crate) fn command<'a>(alloc: Global) -> Result<Command<'a>, AllocError>
    ensures { IfOk result (λ command. app_of command ≡ the_command) }
{
    let command = bare(alloc, "apei-look")
        .arg(flag(alloc, JSON))?
        .arg(flag(alloc, GUESS))?
        .arg(file(alloc))?
        .arg(option(alloc, IMAGE))?
        .arg(option(alloc, SECTOR))?
        .arg(option(alloc, PER_SLOT))?
        .arg(option(alloc, SLOTS))?
        .arg(option(alloc, RECORD))?;
    Ok(command)
}

fn flag<'a>(alloc: Global, name: &'a str) -> Arg<'a>
    ensures rule { rule_of result ≡ flag_rule name.entry.now }
    ensures local { result.global ≡ false }
{
    Arg::new(alloc, name).long(name).action(ArgAction::SetTrue)
}

fn file<'a>(alloc: Global) -> Arg<'a>
    ensures rule { rule_of result ≡ file_rule }
    ensures local { result.global ≡ false }
{
    Arg::new(alloc, FILE)
}
