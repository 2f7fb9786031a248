// What the command line asks for.
ghost use Rattle.std.specs.Prelude.{◌≡◌, Err, IfOk};
ghost use Rattle.clap.specs.Words.{found_of, rows_of};
ghost use Rattle.clap_words.specs.Commands.{NoneFits};
ghost use Rattle.clap_words.specs.declared.error.WordsError.TheVariants.{BadWords};
ghost use Rattle.apei_look.specs.Options.{AreBad, AreOptionsIn, AreOptionsOf};

use crate::command::{GUESS, PER_SLOT, SECTOR, SLOTS, command};
use crate::values::{image, is_set, number_or, show};
use clap::ArgMatches;
use clap_words::{WordsError, matches_in};
use std::alloc::Global;

/// What of an image is shown.
#[derive(Clone, Copy, Debug, PartialEq, Eq)]
pub enum Show {
    /// The whole, as text.
    Text,
    /// The same as JSON.
    Json,
    /// The bytes of the record of this identifier.
    Record(u64),
}

/// The path of an image, its geometry, and what is shown of it. An option that isn't given has its default. Whether the
/// geometry is in its limits is not tried here.
#[derive(Debug, PartialEq, Eq, Drop)]
pub struct Options {
    pub image: String,
    /// The size of a sector in bytes.
    pub sector: u64,
    /// The sectors of a slot.
    pub per_slot: u64,
    pub slots: u64,
    /// Whether the geometry is to be that which the image seems to have, if it seems to have one.
    pub guess: bool,
    pub show: Show,
}

/// What the words behind the program's name ask for: the image's path, by `--image` or by itself, which has to be there, `--sector`,
/// `--per-slot`, `--slots` and `--guess`, and `--record` or `--json`, each at most once.
pub fn options_of(alloc: Global, words: &[String]) -> Result<Options, WordsError>
    ensures options { IfOk result (AreOptionsOf words.now) }
    ensures bad_words { result ≡ Err BadWords → AreBad words.now }
{
    let command = command(alloc)?;
    let matches = matches_in(command, words)?;
    options_in(alloc, &matches)
}

// The options that the values are.
fn options_in(alloc: Global, matches: &ArgMatches<'_>) -> Result<Options, WordsError>
    ensures options { IfOk result (AreOptionsIn (rows_of (found_of matches.now))) }
    ensures bad_words { result ≡ Err BadWords → NoneFits (AreOptionsIn (rows_of (found_of matches.now))) BadWords }
{
    Ok(Options {
        image: image(alloc, matches)?,
        sector: number_or(matches, SECTOR, 4096)?,
        per_slot: number_or(matches, PER_SLOT, 2)?,
        slots: number_or(matches, SLOTS, 32)?,
        guess: is_set(matches, GUESS),
        show: show(matches)?,
    })
}
