// The words of the system.
ghost use Rattle.std.specs.Prelude.{◌≡◌, MatchResult, drop};
ghost use Rattle.std.specs.Vec.Iter.{into_iter_items};
ghost use Rattle.clap_words.specs.declared.error.WordsError.TheVariants.{Memory as NoMemory};

use crate::WordsError;
use std::alloc::Global;
use std::env;
use std::io::ErrorKind;

/// The words behind the program's name. One that is not UTF-8 is of no program's form.
pub fn words(rt: &HostRuntime) -> Result<Vec<String>, WordsError> {
    match env::args(rt) {
        Ok(words) => behind_name(rt.alloc(), words),
        Err(error) if error.kind() == ErrorKind::InvalidData => Err(WordsError::BadWords),
        Err(_) => Err(WordsError::Memory),
    }
}

// The words behind the first, which is the program's name.
fn behind_name(alloc: Global, words: env::Args) -> Result<Vec<String>, WordsError>
    ensures { MatchResult result (λ behind. behind.items ≡ drop 1 (into_iter_items words)) (λ why. why ≡ NoMemory) }
{
    Ok(words.skip(1).collect(alloc)?)
}
