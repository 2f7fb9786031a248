// How a run ended.
ghost use Rattle.std.specs.Prelude.{◌≡◌};
ghost use Rattle.apei_show.specs.Numbers.{number_of, status_of, status_of_file, worse_of};

use clap_words::WordsError;
use show_items::Stop;
use thiserror::Error;

/// How a run ended, and what is said of it.
#[derive(Clone, Copy, Debug, PartialEq, Eq, Error)]
pub enum Status {
    /// What was asked for was written, or nobody reads it any more.
    #[error("apei-show: done")]
    Done,
    /// The words are not taken.
    #[error("apei-show: {0}")]
    Words(#[from] WordsError),
    /// An item was bad.
    #[error("apei-show: an item is bad")]
    Bad,
    /// The output could not be written.
    #[error("apei-show: write failed")]
    Output,
    /// A file could not be read.
    #[error("apei-show: a file can't be read")]
    Unread,
    /// There was no memory.
    #[error("apei-show: out of memory")]
    Memory,
    /// Nobody reads the output any more.
    #[error("apei-show: closed")]
    Closed,
}

impl Status {
    /// The program's exit number. Those that `apei` has too mean the same.
    pub fn number(&self) -> u8
        ensures { result ≡ number_of self.now }
    {
        match self {
            Status::Done | Status::Closed => 0,
            Status::Words(WordsError::BadWords) => 1,
            Status::Bad => 3,
            Status::Output => 4,
            Status::Unread => 5,
            Status::Words(WordsError::Memory) | Status::Memory => 8,
        }
    }

    /// How a file ended of which it was told whether an item is bad, or why no more was shown.
    pub fn of_file(shown: Result<bool, Stop>) -> Status
        ensures { result ≡ status_of_file shown }
    {
        match shown {
            Ok(true) => Status::Bad,
            Ok(false) => Status::Done,
            Err(stop) => Status::from(stop),
        }
    }

    /// The one of two that is said of a run: a file that could not be read, before an item that was bad.
    pub fn worse(self, other: Status) -> Status
        ensures { result ≡ worse_of self other }
    {
        match (self, other) {
            (Status::Unread, _) => Status::Unread,
            (_, other) => other,
        }
    }
}

impl From<Stop> for Status {
    ghost from_gives = { λ stop status. status ≡ status_of stop };

    fn from(stop: Stop) -> Status {
        match stop {
            Stop::Memory => Status::Memory,
            Stop::Output => Status::Output,
            Stop::Closed => Status::Closed,
        }
    }
}
