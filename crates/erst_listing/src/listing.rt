// A listing that makes no access itself.
ghost use Rattle.std.specs.Prelude.{◌≡◌, ◌≤◌, ◌↔◌, length, true, Contains, IsTrue, Ok, Some};
ghost use Rattle.erst_listing.specs.Listing.{listing_first, listing_demanded, listing_answered, listing_result, listed_by, is_sound_listing, is_settled_listing, asked, IsHeard, ListingMoves};

use crate::errors::ListError;
use apei_space::SpaceFault;
use erst_client::{Asking, ClientError};
use erst_entries::{Action, ErstTable};
use erst_interp::{Budget, Demand};

/// How far a listing has come: so many identifiers stand at the front of the caller's buffer.
#[derive(Clone, Copy)]
pub enum Listing {
    /// GET_RECORD_IDENTIFIER runs.
    Asking {
        listed: usize,
        /// The firmware has said once that no more identifiers come.
        ended_once: bool,
        asking: Asking,
    },
    Ended {
        listed: usize,
        result: Result<(), ListError>,
    },
}

impl Listing {
    /// Where a listing begins. Each question has so many steps.
    pub fn first(table: &ErstTable, steps: Budget) -> Listing
        ensures first { result ≡ listing_first table.now.entries steps }
        ensures sound { is_sound_listing result ≡ true }
    {
        asked(table, steps, 0, false)
    }

    /// The access that comes next.
    pub fn demand(&self) -> Option<Demand>
        ensures { result ≡ listing_demanded self.now }
    {
        match self {
            Listing::Asking { asking, .. } => asking.demand(),
            Listing::Ended { .. } => None,
        }
    }

    /// Takes its answer.
    pub fn answer(&mut self, answer: Result<u64, SpaceFault>)
        requires { is_sound_listing self.old ≡ true }
        ensures answered { self.new ≡ listing_answered self.old answer }
        ensures sound { is_sound_listing self.new ≡ true }
    {
        if let Listing::Asking { asking, .. } = self {
            asking.answer(answer);
        }
    }

    /// Goes on up to the next access, or to the end. The identifiers that come are put into the buffer.
    #[tactic(auto, using(crate::proofs::Rules::listings))]
    pub fn settle(&mut self, table: &ErstTable, steps: Budget, ids: &mut [u64])
        requires sound { is_sound_listing self.old ≡ true }
        requires room { listed_by self.old ≤ length ids.old }
        ensures moves { ListingMoves table.now.entries steps self.old ids.old self.new ids.new }
        ensures settled { is_settled_listing self.new ≡ true }
        ensures sound { is_sound_listing self.new ≡ true }
        ensures room { listed_by self.new ≤ length ids.new }
    {
        'questions: loop {
            let Listing::Asking {
                listed,
                ended_once,
                asking,
            } = self
            else {
                return;
            };
            asking.settle(table);
            let Some(answer) = asking.identifier() else {
                return;
            };
            let (listed, ended_once) = (*listed, *ended_once);
            *self = heard(table, steps, listed, ended_once, answer, ids);
        }
    }

    /// So many identifiers stand at the front of the buffer.
    pub fn listed(&self) -> usize
        ensures { result ≡ listed_by self.now }
    {
        match self {
            Listing::Asking { listed, .. } => *listed,
            Listing::Ended { listed, .. } => *listed,
        }
    }

    /// Whether it went through, once it has ended: then the identifiers at the front of the buffer are all.
    pub fn result(&self) -> Option<Result<(), ListError>>
        ensures { result ≡ listing_result self.now }
    {
        match self {
            Listing::Asking { .. } => None,
            Listing::Ended { result, .. } => Some(*result),
        }
    }
}

/// A listing with one more question.
fn asked(table: &ErstTable, steps: Budget, listed: usize, ended_once: bool) -> Listing
    ensures asked { result ≡ asked table.now.entries steps listed ended_once }
    ensures sound { is_sound_listing result ≡ true }
{
    Listing::Asking {
        listed,
        ended_once,
        asking: Asking::first(table, Action::GetRecordIdentifier, steps),
    }
}

/// Where an answer leads.
#[tactic(auto, using(crate::proofs::Rules::answers))]
fn heard(
    table: &ErstTable,
    steps: Budget,
    listed: usize,
    ended_once: bool,
    answer: Result<Option<u64>, ClientError>,
    ids: &mut [u64],
) -> Listing
    requires { listed ≤ length ids.old }
    ensures heard { IsHeard table.now.entries steps listed ended_once ids.old answer result ids.new }
    ensures sound { is_sound_listing result ≡ true }
{
    match answer {
        Ok(Some(id)) => told(table, steps, listed, ended_once, id, ids),
        Ok(None) => {
            if ended_once {
                Listing::Ended {
                    listed,
                    result: Ok(()),
                }
            } else {
                asked(table, steps, listed, true)
            }
        }
        Err(error) => Listing::Ended {
            listed,
            result: Err(ListError::Refused(error)),
        },
    }
}

/// Where an identifier leads.
#[tactic(auto, using(crate::proofs::Rules::answers))]
fn told(
    table: &ErstTable,
    steps: Budget,
    listed: usize,
    ended_once: bool,
    id: u64,
    ids: &mut [u64],
) -> Listing
    requires { listed ≤ length ids.old }
    ensures told { IsHeard table.now.entries steps listed ended_once ids.old (Ok (Some id)) result ids.new }
    ensures sound { is_sound_listing result ≡ true }
{
    if is_listed(&ids[..listed], id) {
        return Listing::Ended {
            listed,
            result: Ok(()),
        };
    }
    if listed == ids.len() {
        return Listing::Ended {
            listed,
            result: Err(ListError::Full),
        };
    }
    ids[listed] = id;
    asked(table, steps, listed + 1, ended_once)
}

fn is_listed(ids: &[u64], id: u64) -> bool
    ensures { IsTrue result ↔ Contains ids.now id }
{
    ids.contains(&id)
}
