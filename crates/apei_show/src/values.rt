// The values of the options.
ghost use Rattle.std.specs.Prelude.{◌≡◌, Err, IfOk, MatchResult, codes, map, option_map, string_bytes};
ghost use Rattle.std.specs.Option.{option_map_or};
ghost use Rattle.clap.specs.Words.{all_of, first_of, found_of, rows_of};
ghost use Rattle.clap_words.specs.Commands.{NoneFits};
ghost use Rattle.clap_words.specs.declared.error.WordsError.TheVariants.{BadWords};
ghost use Rattle.apei_show.specs.Options.{AreFiles, IsColor, IsForm, IsPath, color_of, is_set};

use crate::command::{BRIEF, COLOR, FILES, JSON, SMBIOS};
use crate::{Color, Form};
use clap::ArgMatches;
use clap_words::{WordsError, text};
use std::alloc::{AllocError, Global};

/// The paths of the files, at least one.
pub(crate) fn files(alloc: Global, matches: &ArgMatches<'_>) -> Result<Vec<String>, WordsError>
    ensures files { IfOk result (AreFiles (all_of (codes "files") (rows_of (found_of matches.now)))) }
    ensures bad_words { result ≡ Err BadWords
        → NoneFits (AreFiles (all_of (codes "files") (rows_of (found_of matches.now)))) BadWords }
{
    match given(matches, FILES) {
        Some(paths) => Ok(owned(alloc, paths)?),
        None => Err(WordsError::BadWords),
    }
}

// The texts that an argument was given.
fn given<'m, 'a>(matches: &'m ArgMatches<'a>, name: &str) -> Option<&'m [&'a str]>
    ensures { option_map (λ texts. map (λ text. text.now) texts.now) result
        ≡ all_of name.now (rows_of (found_of matches.now)) }
{
    matches.get_strs(name)
}

fn owned(alloc: Global, texts: &[&str]) -> Result<Vec<String>, AllocError>
    ensures { IfOk result (λ owned. map string_bytes owned.items ≡ map (λ text. text.now) texts.now) }
{
    let mut owned = Vec::new(alloc);
    for text in texts {
        let copy = String::from_str(alloc, text)?;
        owned.push(copy)?;
    }
    Ok(owned)
}

/// JSON, the first lines alone, or text where neither is asked for. Both are none.
pub(crate) fn form(matches: &ArgMatches<'_>) -> Result<Form, WordsError>
    ensures { MatchResult result (IsForm (is_set (codes "json") (rows_of (found_of matches.now)))
        (is_set (codes "brief") (rows_of (found_of matches.now))))
        (NoneFits (IsForm (is_set (codes "json") (rows_of (found_of matches.now)))
        (is_set (codes "brief") (rows_of (found_of matches.now))))) }
{
    let json = is_set(matches, JSON);
    let brief = is_set(matches, BRIEF);
    match (json, brief) {
        (true, true) => Err(WordsError::BadWords),
        (true, false) => Ok(Form::Json),
        (false, true) => Ok(Form::Brief),
        (false, false) => Ok(Form::Text),
    }
}

/// When the output is coloured: on a terminal, where nothing else is asked for.
pub(crate) fn color(matches: &ArgMatches<'_>) -> Result<Color, WordsError>
    ensures { MatchResult result (IsColor (first_of (codes "color") (rows_of (found_of matches.now))))
        (NoneFits (IsColor (first_of (codes "color") (rows_of (found_of matches.now))))) }
{
    match text(matches, COLOR) {
        Some(word) => match color_named(word) {
            Some(color) => Ok(color),
            None => Err(WordsError::BadWords),
        },
        None => Ok(Color::Auto),
    }
}

fn color_named(word: &str) -> Option<Color>
    ensures { result ≡ color_of word.now }
{
    match word {
        "auto" => Some(Color::Auto),
        "always" => Some(Color::Always),
        "never" => Some(Color::Never),
        _ => None,
    }
}

/// The path of the SMBIOS structures, where it is given.
pub(crate) fn smbios(alloc: Global, matches: &ArgMatches<'_>) -> Result<Option<String>, WordsError>
    ensures smbios { IfOk result (IsPath (first_of (codes "smbios") (rows_of (found_of matches.now)))) }
    ensures bad_words { result ≡ Err BadWords
        → NoneFits (IsPath (first_of (codes "smbios") (rows_of (found_of matches.now)))) BadWords }
{
    match text(matches, SMBIOS) {
        Some(path) => Ok(Some(String::from_str(alloc, path)?)),
        None => Ok(None),
    }
}

/// Whether a flag was given: clap keeps the text "true" of one that was.
pub(crate) fn is_set(matches: &ArgMatches<'_>, name: &str) -> bool
    ensures { result ≡ is_set name.now (rows_of (found_of matches.now)) }
{
    match text(matches, name) {
        Some(text) => text == "true",
        None => false,
    }
}
