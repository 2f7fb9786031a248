// A request that makes no access itself, and what its answer says.
ghost use Rattle.std.specs.Prelude.{◌≡◌, true};
ghost use Rattle.erst_interp.specs.Told.{demanded, ended, is_settled, is_sound_state};
ghost use Rattle.erst_client.specs.Asking.{asking_first, asking_answered, counted, named, counted_by, named_by, AskingMoves};

use crate::errors::ClientError;
use crate::requests::program_for;
use apei_space::SpaceFault;
use erst_entries::{Action, ErstTable};
use erst_interp::{Budget, Demand, RunState, RunStop, demanded, first_state};

/// The run of an action's program that is given no value: GET_RECORD_COUNT, GET_RECORD_IDENTIFIER, or what an attaching
/// client asks for.
#[derive(Clone, Copy)]
pub struct Asking {
    pub action: Action,
    pub state: RunState,
    /// The steps that are left.
    pub left: Budget,
}

impl Asking {
    /// Where the run of an action's program begins.
    pub fn first(table: &ErstTable, action: Action, steps: Budget) -> Asking
        ensures first { result ≡ asking_first table.now.entries action steps }
        ensures sound { is_sound_state result.state ≡ true }
    {
        Asking {
            action,
            state: first_state(&program_for(table, action)),
            left: steps,
        }
    }

    /// Goes on up to the next access, or to the end.
    pub fn settle(&mut self, table: &ErstTable)
        requires { is_sound_state self.old.state ≡ true }
        ensures moves { AskingMoves table.now.entries self.old self.new }
        ensures settled { is_settled self.new.state ≡ true }
        ensures sound { is_sound_state self.new.state ≡ true }
    {
        let program = program_for(table, self.action);
        self.state.settle(&program, 0, &mut self.left);
    }

    /// The access that comes next.
    pub fn demand(&self) -> Option<Demand>
        ensures { result ≡ demanded self.now.state }
    {
        demanded(&self.state)
    }

    /// Takes its answer.
    pub fn answer(&mut self, answer: Result<u64, SpaceFault>)
        requires { is_sound_state self.old.state ≡ true }
        ensures answered { self.new ≡ asking_answered self.old answer }
        ensures sound { is_sound_state self.new.state ≡ true }
    {
        self.state.answer(&mut self.left, answer);
    }

    /// The answer of the program, once it has ended.
    pub fn result(&self) -> Option<Result<u64, RunStop>>
        ensures { result ≡ ended self.now.state }
    {
        match self.state {
            RunState::Ended(answer) => Some(answer),
            _ => None,
        }
    }

    /// How many records are stored, once GET_RECORD_COUNT has ended.
    pub fn count(&self) -> Option<Result<u64, ClientError>>
        ensures { result ≡ counted_by (ended self.now.state) }
    {
        match self.result() {
            Some(answer) => Some(counted(answer)),
            None => None,
        }
    }

    /// The identifier at the firmware's cursor, once GET_RECORD_IDENTIFIER has ended; `None` where there is none.
    pub fn identifier(&self) -> Option<Result<Option<u64>, ClientError>>
        ensures { result ≡ named_by (ended self.now.state) }
    {
        match self.result() {
            Some(answer) => Some(named(answer)),
            None => None,
        }
    }
}

/// What GET_RECORD_COUNT says.
pub fn counted(answer: Result<u64, RunStop>) -> Result<u64, ClientError>
    ensures { result ≡ counted answer }
{
    match answer {
        Ok(count) => {
            if count == u64::from(u32::MAX) {
                Err(ClientError::Hardware)
            } else {
                Ok(count)
            }
        }
        Err(stop) => Err(ClientError::Stopped(stop)),
    }
}

/// What GET_RECORD_IDENTIFIER says.
pub fn named(answer: Result<u64, RunStop>) -> Result<Option<u64>, ClientError>
    ensures { result ≡ named answer }
{
    match answer {
        Ok(0) => Err(ClientError::Hardware),
        Ok(u64::MAX) => Ok(None),
        Ok(id) => Ok(Some(id)),
        Err(stop) => Err(ClientError::Stopped(stop)),
    }
}
