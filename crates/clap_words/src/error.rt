// Why words are not taken.
ghost use Rattle.clap_words.specs.declared.error.WordsError.TheVariants.{Memory as NoMemory};
ghost use Rattle.std.specs.Prelude.{◌≡◌};

use std::alloc::AllocError;
use thiserror::Error;

/// Why words are not taken.
#[derive(Clone, Copy, Debug, PartialEq, Eq, Error)]
pub enum WordsError {
    /// They are not of the program's form.
    #[error("bad words")]
    BadWords,
    /// There was no memory.
    #[error("out of memory")]
    Memory,
}

impl From<AllocError> for WordsError {
    ghost from_gives = { λ _ error. error ≡ NoMemory };

    fn from(_: AllocError) -> Self {
        WordsError::Memory
    }
}
