// What a command reads of the words.
ghost use Rattle.std.specs.Prelude.{◌≡◌, IfOk, Err, [], true, option_map, map, string_bytes};
ghost use Rattle.clap.specs.Words.{app_of, fault_of, first_of, found_of, is_simple_and_free, matches_of, rows_of, takes};
ghost use Rattle.clap_words.specs.declared.error.WordsError.TheVariants.{BadWords};

use crate::WordsError;
use clap::error::ErrorKind;
use clap::{ArgMatches, Command};

/// What a command reads of the words, where it takes them.
pub fn matches_in<'a>(
    command: Command<'a>,
    words: &'a [String],
) -> Result<ArgMatches<'a>, WordsError>
    requires { is_simple_and_free (app_of command) ≡ true }
    ensures taken { IfOk result (λ _. fault_of (app_of command.entry) (map string_bytes words.entry.now) ≡ []) }
    ensures read { IfOk result (λ matches. rows_of (found_of matches) ≡ matches_of (app_of command.entry)
        (map string_bytes words.entry.now)) }
    ensures faulty { result ≡ Err BadWords → ¬ (fault_of (app_of command.entry) (map string_bytes words.entry.now) ≡ []) }
    ensures refused { result ≡ Err BadWords → ¬ (takes (app_of command.entry) (map string_bytes words.entry.now) ≡ true) }
{
    match command.try_get_matches_from(words) {
        Ok(matches) => Ok(matches),
        Err(error) => match error.kind() {
            ErrorKind::OutOfMemory => Err(WordsError::Memory),
            _ => Err(WordsError::BadWords),
        },
    }
}

/// The text that an argument was given; clap keeps "true" of a flag.
pub fn text<'a>(matches: &ArgMatches<'a>, name: &str) -> Option<&'a str>
    ensures { option_map (λ text. text.now) result ≡ first_of name.now (rows_of (found_of matches.now)) }
{
    matches.get_str(name)
}
