// How a run of the program ends.
ghost use Rattle.std.specs.Prelude.{◌≡◌};
ghost use Rattle.apei_cli.specs.Statuses.{status_of};

use crate::WordsError;
use script_lines::ScriptEnd;
use std::fmt;

/// How a run ends.
#[derive(Clone, Copy, Debug, PartialEq, Eq)]
pub enum Status {
    /// The script was read to its end.
    Done,
    /// The words are not of the program's form.
    BadWords,
    /// The line with this number, from 1, is none of a script: no line begins with its bytes up to this column, from 1.
    BadLine {
        line: u64,
        column: u32,
    },
    /// A read of the script failed.
    SourceFault,
    /// A write of a reply failed.
    SinkFault,
    /// The flash failed when the machine was booted, reset, or given power again.
    FlashFault,
    /// The geometry is outside its limits, or it is not the flash's, which has this size in bytes.
    BadGeometry {
        sector: u64,
        per_slot: u64,
        slots: u64,
        size: u64,
    },
    /// The line with this number, from 1, or the script up to its end is too long.
    TooLong {
        line: u64,
    },
    /// There was no memory.
    Memory,
}

impl Status {
    ghost use Rattle.apei_cli.specs.Numbers.{exit_number};

    /// The program's exit number.
    pub fn number(&self) -> u8
        ensures { result ≡ exit_number self.now }
    {
        match self {
            Status::Done => 0,
            Status::BadWords => 1,
            Status::BadLine { .. } => 2,
            Status::SourceFault => 3,
            Status::SinkFault => 4,
            Status::FlashFault => 5,
            Status::BadGeometry { .. } => 6,
            Status::TooLong { .. } => 7,
            Status::Memory => 8,
        }
    }
}

/// What the program says of it on standard error; nothing where it is done.
impl fmt::Display for Status {
    ghost use Rattle.std.specs.Prelude.{Some};
    ghost use Rattle.apei_cli.specs.Messages.{words_of_status};

    ghost output = { λ status. Some (words_of_status status) };

    fn fmt<W: fmt::Write>(&self, f: &mut fmt::Formatter<W>) -> fmt::Result {
        match self {
            Status::Done => Ok(()),
            Status::BadWords => write!(f, "apei: bad words"),
            Status::BadLine { line, column } => write!(f, "apei: line {line} column {column}"),
            Status::SourceFault => write!(f, "apei: read failed"),
            Status::SinkFault => write!(f, "apei: write failed"),
            Status::FlashFault => write!(f, "apei: flash failed"),
            Status::BadGeometry {
                sector,
                per_slot,
                slots,
                size,
            } => write!(f, "apei: bad geometry {sector} {per_slot} {slots} {size}"),
            Status::TooLong { line } => write!(f, "apei: line {line} too long"),
            Status::Memory => write!(f, "apei: out of memory"),
        }
    }
}

/// The status of a script that ended.
pub fn status_of(end: ScriptEnd) -> Status
    ensures { result ≡ status_of end }
{
    match end {
        ScriptEnd::Done => Status::Done,
        ScriptEnd::BadLine { line, column } => Status::BadLine { line, column },
        ScriptEnd::SourceFault => Status::SourceFault,
        ScriptEnd::SinkFault => Status::SinkFault,
        ScriptEnd::TooLong { line } => Status::TooLong { line },
        ScriptEnd::Memory => Status::Memory,
    }
}

impl From<WordsError> for Status {
    ghost use Rattle.apei_cli.specs.Statuses.{status_of_words};

    ghost from_gives = { λ error status. status ≡ status_of_words error };

    fn from(error: WordsError) -> Self {
        match error {
            WordsError::BadWords => Status::BadWords,
            WordsError::Memory => Status::Memory,
        }
    }
}
