// The command of a session, how far it has come.
ghost use Rattle.std.specs.Prelude.{◌≡◌, ◌≤◌, length, true};
ghost use Rattle.erst_session.specs.Works.{work_first, work_demanded, work_answered, work_result, is_sound_work, listed_in, found_by, enough, Goes, result_of, result_of_read, result_of_next, result_of_listing, result_of_finding, result_of_asking};

use crate::demands::{WorkDemand, of_access, of_read, of_write};
use crate::errors::WorkError;
use crate::orders::Order;
use apei_space::SpaceFault;
use erst_client::{
    Asking, AttachError, ClientError, Command, Finding, FoundRange, Position, Reading, Writing,
};
use erst_entries::{Action, ErstTable};
use erst_interp::Budget;
use erst_listing::{ListError, Listing};

/// A command under way, or one that has ended.
#[derive(Clone, Copy)]
pub enum Work {
    Attaching(Finding),
    Writing(Writing),
    Reading { id: u64, room: usize, at: Reading },
    /// A clear or a dummy write.
    Running { command: Command, at: Position },
    Counting(Asking),
    Naming(Asking),
    Listing(Listing),
}

/// The steps of a command, by the greatest time that the firmware names.
fn enough(found: FoundRange) -> Budget
    ensures { result ≡ enough found }
{
    Budget::new(match found.timings {
        Some((greatest, _)) => (1024 + 8 * (u64::from(greatest) / 10 + 2)).min(1_048_576),
        None => 65_536,
    })
}

impl Work {
    /// Where a command begins.
    pub fn first(table: &ErstTable, found: FoundRange, order: Order) -> Work
        ensures first { result ≡ work_first table.now.entries found order }
        ensures sound { is_sound_work result ≡ true }
        ensures listed { listed_in result ≡ 0 }
    {
        let steps = enough(found);
        match order {
            Order::Read { id, room } => Work::Reading {
                id,
                room,
                at: Reading::first(table, id, steps),
            },
            Order::Clear(id) => {
                let command = Command::Clear(id);
                Work::Running {
                    command,
                    at: Position::first(table, command, steps),
                }
            }
            Order::Dummy => Work::Running {
                command: Command::Dummy,
                at: Position::first(table, Command::Dummy, steps),
            },
            Order::Count => Work::Counting(Asking::first(table, Action::GetRecordCount, steps)),
            Order::Next => Work::Naming(Asking::first(table, Action::GetRecordIdentifier, steps)),
            Order::List => Work::Listing(Listing::first(table, steps)),
        }
    }

    /// The same, up to its first demand or to its end.
    pub fn begun(table: &ErstTable, found: FoundRange, order: Order, ids: &mut [u64]) -> Work
        ensures goes { Goes table.now.entries found (work_first table.now.entries found order) ids.old result ids.new }
        ensures sound { is_sound_work result ≡ true }
    {
        let mut work = Work::first(table, found, order);
        work.settle(table, found, ids);
        work
    }

    /// What it wants done next.
    pub fn demand(&self, found: FoundRange) -> Option<WorkDemand>
        ensures { result ≡ work_demanded found self.now }
    {
        match self {
            Work::Attaching(at) => of_access(at.demand()),
            Work::Writing(at) => of_write(at.demand(found)),
            Work::Reading { at, .. } => of_read(at.demand(found)),
            Work::Running { at, .. } => of_access(at.demand(found.timings)),
            Work::Counting(at) => of_access(at.demand()),
            Work::Naming(at) => of_access(at.demand()),
            Work::Listing(at) => of_access(at.demand()),
        }
    }

    /// Takes the answer.
    pub fn answer(&mut self, table: &ErstTable, found: FoundRange, answer: Result<u64, SpaceFault>)
        requires { is_sound_work self.old ≡ true }
        ensures answered { self.new ≡ work_answered table.now.entries found self.old answer }
        ensures sound { is_sound_work self.new ≡ true }
        ensures listed { listed_in self.new ≡ listed_in self.old }
    {
        match self {
            Work::Attaching(at) => *at = at.answered(answer),
            Work::Writing(at) => at.answer(table, enough(found), answer),
            Work::Reading { id, room, at } => at.answer(table, found, *id, *room, answer),
            Work::Running { command, at } => at.answer(table, *command, answer),
            Work::Counting(at) => at.answer(answer),
            Work::Naming(at) => at.answer(answer),
            Work::Listing(at) => at.answer(answer),
        }
    }

    /// Goes on up to the next demand, or to the end. A listing puts its identifiers into the buffer.
    pub fn settle(&mut self, table: &ErstTable, found: FoundRange, ids: &mut [u64])
        requires sound { is_sound_work self.old ≡ true }
        requires room { listed_in self.old ≤ length ids.old }
        ensures goes { Goes table.now.entries found self.old ids.old self.new ids.new }
        ensures sound { is_sound_work self.new ≡ true }
    {
        match self {
            Work::Attaching(at) => *at = at.settled(table),
            Work::Writing(at) => at.settle(table, found),
            Work::Reading { id, at, .. } => at.settle(table, found, *id),
            Work::Running { command, at } => at.settle(table, *command, found.timings),
            Work::Counting(at) => at.settle(table),
            Work::Naming(at) => at.settle(table),
            Work::Listing(at) => at.settle(table, enough(found), ids),
        }
    }

    /// So many identifiers stand at the front of a listing's buffer.
    pub fn listed(&self) -> usize
        ensures { result ≡ listed_in self.now }
    {
        match self {
            Work::Listing(at) => at.listed(),
            _ => 0,
        }
    }

    /// What attaching found.
    pub fn found(&self) -> Option<FoundRange>
        ensures { result ≡ found_by self.now }
    {
        match self {
            Work::Attaching(at) => match at.result() {
                Some(Ok(found)) => Some(found),
                _ => None,
            },
            _ => None,
        }
    }

    /// The command's answer, once it has ended: a number, or 0 where it has none.
    pub fn result(&self) -> Option<Result<u64, WorkError>>
        ensures { result ≡ work_result self.now }
    {
        match self {
            Work::Attaching(at) => result_of_finding(at.result()),
            Work::Writing(at) => result_of(at.result()),
            Work::Reading { at, .. } => result_of_read(at.result()),
            Work::Running { at, .. } => result_of(at.result()),
            Work::Counting(at) => result_of_asking(at.count()),
            Work::Naming(at) => result_of_next(at.identifier()),
            Work::Listing(at) => result_of_listing(at.result(), at.listed()),
        }
    }
}

fn result_of_finding(end: Option<Result<FoundRange, AttachError>>) -> Option<Result<u64, WorkError>>
    ensures { result ≡ result_of_finding end }
{
    match end {
        Some(Ok(_)) => Some(Ok(0)),
        Some(Err(error)) => Some(Err(WorkError::Attach(error))),
        None => None,
    }
}

fn result_of(end: Option<Result<(), ClientError>>) -> Option<Result<u64, WorkError>>
    ensures { result ≡ result_of end }
{
    match end {
        Some(Ok(())) => Some(Ok(0)),
        Some(Err(error)) => Some(Err(WorkError::Client(error))),
        None => None,
    }
}

fn result_of_read(end: Option<Result<usize, ClientError>>) -> Option<Result<u64, WorkError>>
    ensures { result ≡ result_of_read end }
{
    match end {
        Some(Ok(len)) => Some(Ok(len as u64)),
        Some(Err(error)) => Some(Err(WorkError::Client(error))),
        None => None,
    }
}

fn result_of_asking(end: Option<Result<u64, ClientError>>) -> Option<Result<u64, WorkError>>
    ensures { result ≡ result_of_asking end }
{
    match end {
        Some(Ok(count)) => Some(Ok(count)),
        Some(Err(error)) => Some(Err(WorkError::Client(error))),
        None => None,
    }
}

fn result_of_next(end: Option<Result<Option<u64>, ClientError>>) -> Option<Result<u64, WorkError>>
    ensures { result ≡ result_of_next end }
{
    match end {
        Some(Ok(Some(id))) => Some(Ok(id)),
        Some(Ok(None)) => Some(Err(WorkError::NoMore)),
        Some(Err(error)) => Some(Err(WorkError::Client(error))),
        None => None,
    }
}

fn result_of_listing(
    end: Option<Result<(), ListError>>,
    listed: usize,
) -> Option<Result<u64, WorkError>>
    ensures { result ≡ result_of_listing end listed }
{
    match end {
        Some(Ok(())) => Some(Ok(listed as u64)),
        Some(Err(ListError::Full)) => Some(Err(WorkError::Full)),
        Some(Err(ListError::Refused(error))) => Some(Err(WorkError::Client(error))),
        None => None,
    }
}
