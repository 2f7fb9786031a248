// What an attaching client asks for, without an access of its own.
ghost use Rattle.std.specs.Prelude.{◌≡◌, true, Some};
ghost use Rattle.erst_interp.specs.Told.{is_sound_state};
ghost use Rattle.erst_client.specs.Timings.{timings_of};
ghost use Rattle.erst_client.specs.Finding.{finding_first, asking_in, with_asking, finding_demanded, finding_answered, told_in, attributed, heard_in, finding_result, is_sound_finding, is_settled_finding, FindingMoves};

use crate::asking::Asking;
use crate::attaching::{FoundRange, admit};
use crate::errors::AttachError;
use crate::requests::program_for;
use apei_space::SpaceFault;
use erst_entries::{Action, ErstTable};
use erst_interp::{Budget, Demand, RunStop};

/// How far a client has come that attaches: which program runs, and what those before it said.
#[derive(Clone, Copy)]
pub enum Finding {
    /// GET_ERROR_LOG_ADDRESS_RANGE runs.
    Address(Asking),
    /// GET_ERROR_LOG_ADDRESS_RANGE_LENGTH runs.
    Length {
        address: u64,
        asking: Asking,
    },
    /// GET_ERROR_LOG_ADDRESS_RANGE_ATTRIBUTES runs.
    Attributes {
        address: u64,
        len: u64,
        asking: Asking,
    },
    /// GET_EXECUTE_OPERATION_TIMINGS runs.
    Timings {
        address: u64,
        len: u64,
        attributes: u64,
        asking: Asking,
    },
    Ended {
        result: Result<FoundRange, AttachError>,
        left: Budget,
    },
}

impl Finding {
    /// Where a client begins to attach.
    pub fn first(table: &ErstTable, steps: Budget) -> Finding
        ensures first { result ≡ finding_first table.now.entries steps }
        ensures sound { is_sound_finding result ≡ true }
    {
        Finding::Address(Asking::first(table, Action::GetErrorLogAddressRange, steps))
    }

    /// The access that comes next.
    pub fn demand(&self) -> Option<Demand>
        ensures { result ≡ finding_demanded self.now }
    {
        match self.asking() {
            Some(asking) => asking.demand(),
            None => None,
        }
    }

    /// Where its answer leads.
    pub fn answered(self, answer: Result<u64, SpaceFault>) -> Finding
        requires { is_sound_finding self ≡ true }
        ensures answered { result ≡ finding_answered self answer }
        ensures sound { is_sound_finding result ≡ true }
    {
        match self.asking() {
            Some(mut asking) => {
                asking.answer(answer);
                self.with(asking)
            }
            None => self,
        }
    }

    /// Goes on up to the next access, or to the end.
    #[tactic(auto, using(crate::proofs::Rules::findings))]
    pub fn settled(self, table: &ErstTable) -> Finding
        requires { is_sound_finding self ≡ true }
        ensures moves { FindingMoves table.now.entries self result }
        ensures settled { is_settled_finding result ≡ true }
        ensures sound { is_sound_finding result ≡ true }
    {
        let mut at = self;
        'requests: loop {
            let Some(mut asking) = at.asking() else {
                return at;
            };
            asking.settle(table);
            match asking.result() {
                Some(answer) => at = at.heard(table, answer, asking.left),
                None => return at.with(asking),
            }
        }
    }

    /// The range, or why a client can't use the table, once it has ended.
    pub fn result(&self) -> Option<Result<FoundRange, AttachError>>
        ensures { result ≡ finding_result self.now }
    {
        match *self {
            Finding::Ended { result, .. } => Some(result),
            _ => None,
        }
    }
}

impl Finding {
    /// The program that runs.
    fn asking(&self) -> Option<Asking>
        ensures asking { result ≡ asking_in self.now }
    {
        match *self {
            Finding::Address(asking) => Some(asking),
            Finding::Length { asking, .. } => Some(asking),
            Finding::Attributes { asking, .. } => Some(asking),
            Finding::Timings { asking, .. } => Some(asking),
            Finding::Ended { .. } => None,
        }
    }

    /// The same with its program further on.
    fn with(self, asking: Asking) -> Finding
        requires { is_sound_state asking.state ≡ true }
        ensures with { result ≡ with_asking self asking }
        ensures sound { is_sound_finding result ≡ true }
    {
        match self {
            Finding::Address(_) => Finding::Address(asking),
            Finding::Length { address, .. } => Finding::Length { address, asking },
            Finding::Attributes { address, len, .. } => Finding::Attributes {
                address,
                len,
                asking,
            },
            Finding::Timings {
                address,
                len,
                attributes,
                ..
            } => Finding::Timings {
                address,
                len,
                attributes,
                asking,
            },
            Finding::Ended { .. } => self,
        }
    }

    /// Where the answer of its program leads.
    fn heard(self, table: &ErstTable, answer: Result<u64, RunStop>, left: Budget) -> Finding
        ensures heard { result ≡ heard_in table.now.entries self answer left }
        ensures sound { is_sound_finding result ≡ true }
    {
        match answer {
            Ok(number) => self.told(table, number, left),
            Err(stop) => match self {
                Finding::Ended { .. } => self,
                _ => Finding::Ended {
                    result: Err(AttachError::Stopped(stop)),
                    left,
                },
            },
        }
    }

    /// Where a number leads that its program answered.
    fn told(self, table: &ErstTable, number: u64, left: Budget) -> Finding
        ensures told { result ≡ told_in table.now.entries self number left }
        ensures sound { is_sound_finding result ≡ true }
    {
        match self {
            Finding::Address(_) => Finding::Length {
                address: number,
                asking: Asking::first(table, Action::GetErrorLogAddressRangeLength, left),
            },
            Finding::Length { address, .. } => Finding::Attributes {
                address,
                len: number,
                asking: Asking::first(table, Action::GetErrorLogAddressRangeAttributes, left),
            },
            Finding::Attributes { address, len, .. } => {
                Finding::judged(table, address, len, number, left)
            }
            Finding::Timings {
                address,
                len,
                attributes,
                ..
            } => Finding::Ended {
                result: admit(address, len, attributes, Some(timings_of(number))),
                left,
            },
            Finding::Ended { .. } => self,
        }
    }

    /// Where the attributes lead: the timings are asked for where the table has entries for them.
    fn judged(table: &ErstTable, address: u64, len: u64, attributes: u64, left: Budget) -> Finding
        ensures judged { result ≡ attributed table.now.entries address len attributes left }
        ensures sound { is_sound_finding result ≡ true }
    {
        if program_for(table, Action::GetExecuteOperationTimings).is_empty() {
            Finding::Ended {
                result: admit(address, len, attributes, None),
                left,
            }
        } else {
            Finding::Timings {
                address,
                len,
                attributes,
                asking: Asking::first(table, Action::GetExecuteOperationTimings, left),
            }
        }
    }
}

/// The greatest and the nominal time.
fn timings_of(answer: u64) -> (u32, u32)
    ensures { Some result ≡ timings_of (Some answer) }
{
    ((answer >> 32) as u32, (answer % (1 << 32)) as u32)
}
