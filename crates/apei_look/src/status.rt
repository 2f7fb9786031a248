// How a run ended.
ghost use Rattle.std.specs.Prelude.{◌≡◌};
ghost use Rattle.apei_look.specs.Numbers.{number_of};
ghost use Rattle.apei_look.specs.declared.image_file.FileFault.TheVariants.{Unreadable};
ghost use Rattle.apei_look.specs.declared.status.Status.TheVariants.{File as OfFile, Memory as WantOfMemory};

use crate::image_file::FileFault;
use crate::unread::Unread;
use clap_words::WordsError;
use std::alloc::AllocError;
use std::io;
use thiserror::Error;

/// How a run ended, and what is said of it.
#[derive(Clone, Copy, Debug, PartialEq, Eq, Error)]
pub enum Status {
    /// What was asked for was written.
    #[error("apei-look: done")]
    Done,
    /// The words are not taken.
    #[error("apei-look: {0}")]
    Words(#[from] WordsError),
    /// The output could not be written.
    #[error("apei-look: write failed")]
    SinkFault,
    /// The file is not read.
    #[error("apei-look: {0}")]
    File(FileFault),
    /// The geometry is outside its limits.
    #[error("apei-look: the geometry is outside its limits")]
    BadGeometry,
    /// The file has another length than the geometry.
    #[error("apei-look: the image has {found} bytes, and the geometry {wanted}")]
    Length { found: u64, wanted: u64 },
    /// The file is a medium whose slots are not shown.
    #[error("apei-look: {0}")]
    Unread(Unread),
    /// There was no memory.
    #[error("apei-look: out of memory")]
    Memory,
    /// A boot finds no record of the identifier.
    #[error("apei-look: there is no record {id}")]
    NoRecord { id: u64 },
}

impl Status {
    /// The program's exit number. Those that `apei` has too mean the same.
    pub fn number(&self) -> u8
        ensures { result ≡ number_of self.now }
    {
        match self {
            Status::Done => 0,
            Status::Words(WordsError::BadWords) => 1,
            Status::SinkFault => 4,
            Status::File(_) => 5,
            Status::BadGeometry | Status::Length { .. } | Status::Unread(_) => 6,
            Status::Words(WordsError::Memory) | Status::Memory => 8,
            Status::NoRecord { .. } => 10,
        }
    }
}

impl From<AllocError> for Status {
    ghost from_gives = { λ _ status. status ≡ WantOfMemory };

    fn from(_: AllocError) -> Status {
        Status::Memory
    }
}

impl From<io::Error> for Status {
    ghost from_gives = { λ _ status. status ≡ OfFile Unreadable };

    fn from(_: io::Error) -> Status {
        Status::File(FileFault::Unreadable)
    }
}
