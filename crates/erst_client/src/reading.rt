// A read that makes no access itself: its sequence runs, and then the record is copied out of the range.
ghost use Rattle.std.specs.Prelude.{◌≡◌, true, Err};
ghost use Rattle.erst_client.specs.Reading.{read_first, read_demanded, read_answered, read_result, is_sound_read, is_settled_read, ReadMoves};

use crate::attaching::FoundRange;
use crate::commands::copy_refusal;
use crate::errors::ClientError;
use crate::positions::Position;
use crate::stages::{Command, Stage};
use apei_space::SpaceFault;
use cper_frame::LENGTH_AT;
use erst_entries::ErstTable;
use erst_interp::{Budget, Demand};

/// How far a read has come. The buffer stays with the caller.
#[derive(Clone, Copy)]
pub enum Reading {
    Sequence(Position),
    /// The record's length is read.
    Length {
        left: Budget,
    },
    /// The record, of so many bytes, is copied into the buffer.
    Record {
        len: u64,
        left: Budget,
    },
    Ended {
        result: Result<usize, ClientError>,
        left: Budget,
    },
}

/// What a read wants done next.
#[derive(Clone, Copy)]
pub enum ReadDemand {
    /// The four bytes at this address are to be read in one access. They are a number, least byte first, and it is the answer.
    TakeLength { address: u64 },
    /// So many bytes at this address are to be read into the start of the buffer in one access.
    TakeRecord { address: u64, len: u64 },
    Access(Demand),
}

impl Reading {
    /// Where a read of the record of this identifier begins.
    pub fn first(table: &ErstTable, id: u64, steps: Budget) -> Reading
        ensures first { result ≡ read_first table.now.entries id steps }
        ensures sound { is_sound_read result ≡ true }
    {
        Reading::Sequence(Position::first(table, Command::Read(id), steps))
    }

    /// What the read wants done next.
    pub fn demand(&self, found: FoundRange) -> Option<ReadDemand>
        ensures { result ≡ read_demanded found self.now }
    {
        match self {
            Reading::Sequence(at) => match at.demand(found.timings) {
                Some(demand) => Some(ReadDemand::Access(demand)),
                None => None,
            },
            Reading::Length { .. } => Some(ReadDemand::TakeLength {
                address: found.address.wrapping_add(LENGTH_AT as u64),
            }),
            Reading::Record { len, .. } => Some(ReadDemand::TakeRecord {
                address: found.address,
                len: *len,
            }),
            Reading::Ended { .. } => None,
        }
    }

    /// Takes its answer, with a buffer of so many bytes.
    pub fn answer(
        &mut self,
        table: &ErstTable,
        found: FoundRange,
        id: u64,
        room: usize,
        answer: Result<u64, SpaceFault>,
    )
        requires { is_sound_read self.old ≡ true }
        ensures answered { self.new ≡ read_answered table.now.entries found.len id room self.old answer }
        ensures sound { is_sound_read self.new ≡ true }
    {
        match self {
            Reading::Sequence(at) => at.answer(table, Command::Read(id), answer),
            Reading::Length { left } => {
                let left = *left;
                *self = match answer {
                    Ok(len) => match copy_refusal(len, found.len, room as u64) {
                        Some(error) => Reading::failed(error, left),
                        None => Reading::Record { len, left },
                    },
                    Err(fault) => Reading::failed(ClientError::Range(fault), left),
                };
            }
            Reading::Record { len, left } => {
                let (len, left) = (*len, *left);
                *self = match answer {
                    Ok(_) => Reading::Ended {
                        result: Ok(len as usize),
                        left,
                    },
                    Err(fault) => Reading::failed(ClientError::Range(fault), left),
                };
            }
            Reading::Ended { .. } => {}
        }
    }

    /// Goes on up to the next demand, or to the end.
    pub fn settle(&mut self, table: &ErstTable, found: FoundRange, id: u64)
        requires { is_sound_read self.old ≡ true }
        ensures moves { ReadMoves table.now.entries id found.timings self.old self.new }
        ensures settled { is_settled_read self.new ≡ true }
        ensures sound { is_sound_read self.new ≡ true }
    {
        let Reading::Sequence(at) = self else {
            return;
        };
        at.settle(table, Command::Read(id), found.timings);
        let left = at.kept;
        match at.stage {
            Stage::Done(Ok(())) => *self = Reading::Length { left },
            Stage::Done(Err(error)) => *self = Reading::failed(error, left),
            _ => {}
        }
    }

    /// The read's answer, once it has ended: how many bytes of the buffer are the record.
    pub fn result(&self) -> Option<Result<usize, ClientError>>
        ensures { result ≡ read_result self.now }
    {
        match self {
            Reading::Ended { result, .. } => Some(*result),
            _ => None,
        }
    }

    fn failed(error: ClientError, left: Budget) -> Reading
        ensures { result ≡ Reading.Ended (Err error) left }
    {
        Reading::Ended {
            result: Err(error),
            left,
        }
    }
}
