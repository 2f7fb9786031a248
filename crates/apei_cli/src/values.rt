// The job and the values of the options.
ghost use Rattle.std.specs.Prelude.{◌≡◌, ◌↔◌, ◌≤◌, ◌||◌, Err, IfOk, IsTrue, MatchResult, MatchOption, None, Some, codes, is_some, not, option_and_then, option_map};
ghost use Rattle.std.specs.List.{AllPass};
ghost use Rattle.clap.specs.Words.{first_of, found_of, rows_of};
ghost use Rattle.apei_cli.specs.CommandWords.{belongs, job_of, settings};
ghost use Rattle.clap_words.specs.Commands.{NoneFits};
ghost use Rattle.clap_words.specs.declared.error.WordsError.TheVariants.{BadWords};
ghost use Rattle.apei_cli.specs.Plan.{IsCount, IsGiven, IsGivenOr, IsImage, IsShow, given};
ghost use Rattle.apei_cli.specs.declared.setting.Setting.TheVariants.{Count, Image, Show as TheShow};

use crate::command::JOB;
use crate::number::number_up_to;
use crate::setting::{SETTINGS, Setting};
use crate::{Job, Show, WordsError};
use bitflags::parser::from_str_strict;
use clap::ArgMatches;
use std::alloc::Global;

/// The most commands that are made.
const MOST_COMMANDS: u64 = 100_000;

/// The job that is named.
pub(crate) fn job(matches: &ArgMatches<'_>) -> Result<Job, WordsError>
    ensures { MatchResult result (λ job. option_and_then job_of (first_of (codes "job") (rows_of (found_of matches.now))) ≡ Some job)
        (λ error. (error ≡ BadWords)
        × (option_and_then job_of (first_of (codes "job") (rows_of (found_of matches.now))) ≡ None)) }
{
    let Some(name) = job_text(matches) else {
        return Err(WordsError::BadWords);
    };
    match job_named(name) {
        Some(job) => Ok(job),
        None => Err(WordsError::BadWords),
    }
}

// The job of a name.
fn job_named(name: &str) -> Option<Job>
    ensures { result ≡ job_of name.now }
{
    match name {
        "play" => Some(Job::Play),
        "sim" => Some(Job::Sim),
        "check" => Some(Job::Check),
        "gen" => Some(Job::Gen),
        "hub" => Some(Job::Hub),
        _ => None,
    }
}

/// Whether each option that was given belongs to the job.
pub(crate) fn are_own(matches: &ArgMatches<'_>, job: Job) -> bool
    ensures { IsTrue result ↔ AllPass (λ setting.
        not (is_some (given setting (rows_of (found_of matches.now)))) || belongs setting job) settings }
{
    SETTINGS
        .iter()
        .all(|setting| is_own(matches, job, *setting))
}

// Whether an option was not given, or belongs to the job.
fn is_own(matches: &ArgMatches<'_>, job: Job, setting: Setting) -> bool
    ensures { result ≡ (not (is_some (given setting (rows_of (found_of matches.now)))) || belongs setting job) }
{
    text(matches, setting).is_none() || setting.belongs_to(job)
}

/// The path of the image.
pub(crate) fn image(
    alloc: Global,
    matches: &ArgMatches<'_>,
    job: Job,
) -> Result<Option<String>, WordsError>
    ensures image { IfOk result (IsImage job (given Image (rows_of (found_of matches.now)))) }
    ensures bad_words { result ≡ Err BadWords
        → NoneFits (IsImage job (given Image (rows_of (found_of matches.now)))) BadWords }
{
    match text(matches, Setting::Image) {
        Some(path) => {
            if path.is_empty() {
                return Err(WordsError::BadWords);
            }
            Ok(Some(String::from_str(alloc, path)?))
        }
        None => {
            if matches!(job, Job::Play) {
                return Err(WordsError::BadWords);
            }
            Ok(None)
        }
    }
}

/// How many commands are made.
pub(crate) fn count(matches: &ArgMatches<'_>, job: Job) -> Result<u64, WordsError>
    ensures { MatchResult result (IsCount job (given Count (rows_of (found_of matches.now))))
        (NoneFits (IsCount job (given Count (rows_of (found_of matches.now))))) }
{
    match number_of(matches, Setting::Count, MOST_COMMANDS)? {
        Some(count) => Ok(count),
        None => {
            if matches!(job, Job::Gen) {
                return Err(WordsError::BadWords);
            }
            Ok(0)
        }
    }
}

/// What is shown of a checked item.
pub(crate) fn show(matches: &ArgMatches<'_>) -> Result<Show, WordsError>
    ensures { MatchResult result (IsShow (given TheShow (rows_of (found_of matches.now))))
        (NoneFits (IsShow (given TheShow (rows_of (found_of matches.now))))) }
{
    match text(matches, Setting::Show) {
        Some(names) => match from_str_strict::<Show>(names) {
            Ok(show) => Ok(show),
            Err(_) => Err(WordsError::BadWords),
        },
        None => Ok(Show::HEAD),
    }
}

/// The number that an option was given, or its default.
pub(crate) fn number_or(
    matches: &ArgMatches<'_>,
    setting: Setting,
    default: u64,
    most: u64,
) -> Result<u64, WordsError>
    ensures { MatchResult result (IsGivenOr default most (given setting (rows_of (found_of matches.now))))
        (NoneFits (IsGivenOr default most (given setting (rows_of (found_of matches.now))))) }
{
    Ok(number_of(matches, setting, most)?.unwrap_or(default))
}

/// The number of at most `most` that an option was given.
pub(crate) fn number_of(
    matches: &ArgMatches<'_>,
    setting: Setting,
    most: u64,
) -> Result<Option<u64>, WordsError>
    ensures { MatchResult result (IsGiven most (given setting (rows_of (found_of matches.now))))
        (NoneFits (IsGiven most (given setting (rows_of (found_of matches.now))))) }
{
    match text(matches, setting) {
        Some(digits) => match number_up_to(digits.as_bytes(), most) {
            Some(number) => Ok(Some(number)),
            None => Err(WordsError::BadWords),
        },
        None => Ok(None),
    }
}

// The text that an option was given.
fn text<'a>(matches: &ArgMatches<'a>, setting: Setting) -> Option<&'a str>
    ensures { option_map (λ text. text.now) result ≡ given setting (rows_of (found_of matches.now)) }
{
    clap_words::text(matches, setting.name())
}

// The name of the job.
fn job_text<'a>(matches: &ArgMatches<'a>) -> Option<&'a str>
    ensures { option_map (λ text. text.now) result ≡ first_of (codes "job") (rows_of (found_of matches.now)) }
{
    clap_words::text(matches, JOB)
}
