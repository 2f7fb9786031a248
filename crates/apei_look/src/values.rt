// The values of the options.
ghost use Rattle.std.specs.Prelude.{◌≡◌, Err, IfOk, MatchResult, codes, option_map};
ghost use Rattle.clap.specs.Words.{first_of, found_of, rows_of};
ghost use Rattle.clap_words.specs.Commands.{NoneFits};
ghost use Rattle.clap_words.specs.declared.error.WordsError.TheVariants.{BadWords};
ghost use Rattle.apei_look.specs.Options.{IsGivenOr, IsImage, IsShow, is_set, one_of};

use crate::command::{FILE, IMAGE, JSON, RECORD};
use crate::number::number;
use crate::options::Show;
use clap::ArgMatches;
use clap_words::{WordsError, text};
use std::alloc::Global;

/// The path of the image, by the option or by itself, which is not empty.
pub(crate) fn image(alloc: Global, matches: &ArgMatches<'_>) -> Result<String, WordsError>
    ensures image { IfOk result (IsImage (one_of (first_of (codes "image") (rows_of (found_of matches.now)))
        (first_of (codes "file") (rows_of (found_of matches.now))))) }
    ensures bad_words { result ≡ Err BadWords
        → NoneFits (IsImage (one_of (first_of (codes "image") (rows_of (found_of matches.now)))
        (first_of (codes "file") (rows_of (found_of matches.now))))) BadWords }
{
    match path(matches) {
        Some(path) => {
            if path.is_empty() {
                return Err(WordsError::BadWords);
            }
            Ok(String::from_str(alloc, path)?)
        }
        None => Err(WordsError::BadWords),
    }
}

// The path that is given once.
fn path<'a>(matches: &ArgMatches<'a>) -> Option<&'a str>
    ensures { option_map (λ text. text.now) result ≡ one_of (first_of (codes "image")
        (rows_of (found_of matches.now))) (first_of (codes "file") (rows_of (found_of matches.now))) }
{
    match text(matches, IMAGE) {
        Some(path) => match text(matches, FILE) {
            Some(_) => None,
            None => Some(path),
        },
        None => text(matches, FILE),
    }
}

/// The number that an option was given, or its default.
pub(crate) fn number_or(
    matches: &ArgMatches<'_>,
    name: &str,
    default: u64,
) -> Result<u64, WordsError>
    ensures { MatchResult result (IsGivenOr default (first_of name.now (rows_of (found_of matches.now))))
        (NoneFits (IsGivenOr default (first_of name.now (rows_of (found_of matches.now))))) }
{
    match text(matches, name) {
        Some(digits) => match number(digits) {
            Some(number) => Ok(number),
            None => Err(WordsError::BadWords),
        },
        None => Ok(default),
    }
}

/// One record, JSON, or text where neither is asked for. Both are none.
pub(crate) fn show(matches: &ArgMatches<'_>) -> Result<Show, WordsError>
    ensures { MatchResult result (IsShow (is_set (codes "json") (rows_of (found_of matches.now)))
        (first_of (codes "record") (rows_of (found_of matches.now))))
        (NoneFits (IsShow (is_set (codes "json") (rows_of (found_of matches.now)))
        (first_of (codes "record") (rows_of (found_of matches.now))))) }
{
    let json = is_set(matches, JSON);
    match text(matches, RECORD) {
        Some(_) if json => Err(WordsError::BadWords),
        Some(digits) => match number(digits) {
            Some(id) => Ok(Show::Record(id)),
            None => Err(WordsError::BadWords),
        },
        None if json => Ok(Show::Json),
        None => Ok(Show::Text),
    }
}

/// Whether a flag was given: clap keeps the text "true" of one that was.
pub(crate) fn is_set(matches: &ArgMatches<'_>, name: &str) -> bool
    ensures { result ≡ is_set name.now (rows_of (found_of matches.now)) }
{
    match text(matches, name) {
        Some(text) => text == "true",
        None => false,
    }
}
