// A write that makes no access itself: the record and its mark are put into the range, and then its sequence runs.
ghost use Rattle.std.specs.Prelude.{◌≡◌, true};
ghost use Rattle.erst_client.specs.Writing.{write_first, write_demanded, write_answered, write_result, is_sound_write, is_settled_write, WriteMoves};

use crate::attaching::FoundRange;
use crate::commands::{MARK_AT, refusal};
use crate::errors::ClientError;
use crate::positions::Position;
use crate::stages::Command;
use apei_space::SpaceFault;
use erst_entries::ErstTable;
use erst_interp::{Budget, Demand};

/// How far a write has come. The record's bytes stay with the caller.
#[derive(Clone, Copy)]
pub enum Writing {
    /// The record is put at the start of the range.
    Record,
    /// Its mark of persistence is put over two of its bytes.
    Mark,
    Sequence(Position),
    Refused(ClientError),
}

/// What a write wants done next.
#[derive(Clone, Copy)]
pub enum WriteDemand {
    /// The bytes of the record are to be written at this address.
    PutRecord { address: u64 },
    /// The two bytes "ER" are to be written at this address.
    PutMark { address: u64 },
    Access(Demand),
}

impl Writing {
    /// Where a write of these bytes begins.
    pub fn first(found: FoundRange, bytes: &[u8]) -> Writing
        ensures first { result ≡ write_first found bytes.now }
        ensures sound { is_sound_write result ≡ true }
    {
        match refusal(bytes, found.len) {
            Some(error) => Writing::Refused(error),
            None => Writing::Record,
        }
    }

    /// What the write wants done next.
    pub fn demand(&self, found: FoundRange) -> Option<WriteDemand>
        ensures { result ≡ write_demanded found self.now }
    {
        match self {
            Writing::Record => Some(WriteDemand::PutRecord {
                address: found.address,
            }),
            Writing::Mark => Some(WriteDemand::PutMark {
                address: found.address.wrapping_add(MARK_AT),
            }),
            Writing::Sequence(at) => match at.demand(found.timings) {
                Some(demand) => Some(WriteDemand::Access(demand)),
                None => None,
            },
            Writing::Refused(_) => None,
        }
    }

    /// Takes its answer. The sequence has these steps.
    pub fn answer(&mut self, table: &ErstTable, steps: Budget, answer: Result<u64, SpaceFault>)
        requires { is_sound_write self.old ≡ true }
        ensures answered { self.new ≡ write_answered table.now.entries steps self.old answer }
        ensures sound { is_sound_write self.new ≡ true }
    {
        match self {
            Writing::Record => {
                *self = match answer {
                    Ok(_) => Writing::Mark,
                    Err(fault) => Writing::Refused(ClientError::Range(fault)),
                };
            }
            Writing::Mark => {
                *self = match answer {
                    Ok(_) => Writing::Sequence(Position::first(table, Command::Write, steps)),
                    Err(fault) => Writing::Refused(ClientError::Range(fault)),
                };
            }
            Writing::Sequence(at) => at.answer(table, Command::Write, answer),
            Writing::Refused(_) => {}
        }
    }

    /// Goes on up to the next demand, or to the end.
    pub fn settle(&mut self, table: &ErstTable, found: FoundRange)
        requires { is_sound_write self.old ≡ true }
        ensures moves { WriteMoves table.now.entries found.timings self.old self.new }
        ensures settled { is_settled_write self.new ≡ true }
        ensures sound { is_sound_write self.new ≡ true }
    {
        if let Writing::Sequence(at) = self {
            at.settle(table, Command::Write, found.timings);
        }
    }

    /// The write's answer, once it has ended.
    pub fn result(&self) -> Option<Result<(), ClientError>>
        ensures { result ≡ write_result self.now }
    {
        match self {
            Writing::Refused(error) => Some(Err(*error)),
            Writing::Sequence(at) => at.result(),
            _ => None,
        }
    }
}
