// A session with a firmware.
ghost use Rattle.std.specs.Prelude.{◌≡◌};
ghost use Rattle.erst_session.specs.Sessions.{Opens, Begins, BeginsWrite, GoesOn, session_demanded, session_result, session_refusal, session_range, listed_by};

use crate::demands::WorkDemand;
use crate::errors::{SessionError, WorkError};
use crate::orders::Order;
use crate::works::Work;
use apei_space::SpaceFault;
use erst_client::{Finding, FoundRange, Writing};
use erst_entries::ErstTable;
use erst_interp::Budget;
use std::marker::Model;

/// A firmware's table, what it says of itself, and the command that is under way. It takes no memory.
#[derive(Drop)]
pub struct Session {
    table: ErstTable,
    found: FoundRange,
    is_attached: bool,
    work: Work,
}

impl Model for Session {
    ghost use Rattle.std.specs.Prelude.{◌≡◌, true};
    ghost use Rattle.erst_session.specs.Sessions.{SessionState};
    ghost use Rattle.erst_session.specs.Works.{is_sound_work};

    ghost Value = { SessionState };

    ghost view = { λ s. record { table = s.table; found = s.found; is_attached = s.is_attached; work = s.work } };

    ghost invariant = { λ s. is_sound_work s.work ≡ true };
}

impl Session {
    /// A session over a table, which begins to attach: it asks for the error log address range, its length, its attributes and the
    /// timings.
    pub fn open(table: ErstTable) -> Session
        ensures { Opens table result }
    {
        let at = Finding::first(&table, Budget::new(65_536)).settled(&table);
        let mut session = Session {
            table,
            found: FoundRange {
                address: 0,
                len: 0,
                timings: None,
            },
            is_attached: false,
            work: Work::Attaching(at),
        };
        session.note();
        session
    }

    /// Begins to write a record, whose bytes stay with the caller.
    pub fn begin_write(&mut self, bytes: &[u8]) -> Result<(), SessionError>
        ensures { BeginsWrite bytes.now self.old result self.new }
    {
        if let Some(error) = self.refusal() {
            return Err(error);
        }
        self.work = Work::Writing(Writing::first(self.found, bytes));
        Ok(())
    }

    /// Begins another command. A listing puts its identifiers into the buffer.
    pub fn begin(&mut self, order: Order, ids: &mut [u64]) -> Result<(), SessionError>
        ensures { Begins order self.old ids.old result self.new ids.new }
    {
        if let Some(error) = self.refusal() {
            return Err(error);
        }
        self.work = Work::begun(&self.table, self.found, order, ids);
        Ok(())
    }

    /// What is to be done next.
    pub fn demand(&self) -> Option<WorkDemand>
        ensures { result ≡ session_demanded self.now }
    {
        self.work.demand(self.found)
    }

    /// Says that it was done, with its answer. A listing puts its identifiers into the buffer, which has to be the same one each
    /// time.
    pub fn answer(
        &mut self,
        answer: Result<u64, SpaceFault>,
        ids: &mut [u64],
    ) -> Result<(), SessionError>
        ensures { GoesOn answer self.old ids.old result self.new ids.new }
    {
        if self.work.listed() > ids.len() {
            return Err(SessionError::Short);
        }
        self.work.answer(&self.table, self.found, answer);
        self.work.settle(&self.table, self.found, ids);
        self.note();
        Ok(())
    }

    /// The command's answer, once it has ended: a number, or 0 where it has none.
    pub fn result(&self) -> Option<Result<u64, WorkError>>
        ensures { result ≡ session_result self.now }
    {
        self.work.result()
    }

    /// The error log address range and the timings, once it has attached.
    pub fn range(&self) -> Option<FoundRange>
        ensures { result ≡ session_range self.now }
    {
        if self.is_attached {
            Some(self.found)
        } else {
            None
        }
    }

    /// So many identifiers stand at the front of a listing's buffer.
    pub fn listed(&self) -> usize
        ensures { result ≡ listed_by self.now }
    {
        self.work.listed()
    }
}

impl Session {
    ghost use Rattle.erst_session.specs.Sessions.{noted};

    /// Notes what attaching found.
    fn note(&mut self)
        ensures { self.new ≡ noted self.old }
    {
        if let Some(found) = self.work.found() {
            self.found = found;
            self.is_attached = true;
        }
    }

    /// Why no command may begin.
    fn refusal(&self) -> Option<SessionError>
        ensures { result ≡ session_refusal self.now }
    {
        if !self.is_attached {
            return Some(SessionError::Unattached);
        }
        match self.work.result() {
            Some(_) => None,
            None => Some(SessionError::Busy),
        }
    }
}
