// A command that makes no access itself.
ghost use Rattle.std.specs.Prelude.{◌≡◌, true};
ghost use Rattle.erst_interp.specs.Told.{Comes, is_settled, is_sound_state};
ghost use Rattle.erst_client.specs.Stages.{is_bounded};
ghost use Rattle.erst_client.specs.Reaching.{steps_for, steps_after};
ghost use Rattle.erst_client.specs.Positions.{program_for, first_run, entered, turned_at, demanded_at, answered_at, result_at, is_sound_at, is_settled_at, Moves};

use crate::errors::ClientError;
use crate::requests::{Request, program_for};
use crate::sequences::END_STEPS;
use crate::stages::{Command, PAUSE, Part, Stage, request_for, turned};
use apei_space::SpaceFault;
use erst_entries::ErstTable;
use erst_interp::{Budget, Demand, RunState, RunStop, demanded, first_state};

/// How far a command has come that makes no access itself.
#[derive(Clone, Copy)]
pub struct Position {
    pub stage: Stage,
    /// The run of the stage's program.
    pub state: RunState,
    /// The steps that are left to the run.
    pub left: Budget,
    /// The steps that the command had as the stage began.
    pub kept: Budget,
}

impl Position {
    /// Where a command begins.
    pub fn first(table: &ErstTable, command: Command, budget: Budget) -> Position
        ensures first { result ≡ entered table.now.entries command (Stage.Requesting Part.Begin) budget }
        ensures sound { is_sound_at result ≡ true }
    {
        Position::entered(table, command, Stage::Requesting(Part::Begin), budget)
    }

    /// Where a stage begins.
    fn entered(table: &ErstTable, command: Command, stage: Stage, left: Budget) -> Position
        requires { is_bounded stage ≡ true }
        ensures entered { result ≡ entered table.now.entries command stage left }
        ensures sound { is_sound_at result ≡ true }
    {
        Position {
            stage,
            state: first_run(table, request_for(command, stage)),
            left: steps_for(stage, left),
            kept: left,
        }
    }

    /// Goes on up to the next access, or to the end.
    #[tactic(auto, using(crate::proofs::Rules::positions))]
    pub fn settle(&mut self, table: &ErstTable, command: Command, timings: Option<(u32, u32)>)
        requires { is_sound_at self.old ≡ true }
        ensures moves { Moves table.now.entries command timings self.old self.new }
        ensures settled { is_settled_at self.new.stage self.new.state ≡ true }
        ensures sound { is_sound_at self.new ≡ true }
    {
        'stages: loop {
            let Some(request) = request_for(command, self.stage) else {
                return;
            };
            self.run_on(table, request);
            match self.state {
                RunState::Ended(answer) => self.turn(table, command, timings, answer),
                _ => return,
            }
        }
    }

    /// The access that comes next. A client that knows no timings waits no time.
    pub fn demand(&self, timings: Option<(u32, u32)>) -> Option<Demand>
        ensures { result ≡ demanded_at timings self.now }
    {
        match self.stage {
            Stage::Waiting(_) => Some(Demand::Pause {
                micros: if timings.is_some() { PAUSE } else { 0 },
            }),
            Stage::Done(_) => None,
            _ => demanded(&self.state),
        }
    }

    /// Takes the answer of that access.
    pub fn answer(&mut self, table: &ErstTable, command: Command, answer: Result<u64, SpaceFault>)
        requires { is_sound_at self.old ≡ true }
        ensures answered { self.new ≡ answered_at table.now.entries command self.old answer }
        ensures sound { is_sound_at self.new ≡ true }
    {
        match self.stage {
            Stage::Waiting(waited) => {
                *self = Position::entered(table, command, Stage::Checking(waited), self.kept);
            }
            _ => self.state.answer(&mut self.left, answer),
        }
    }

    /// The command's answer, once it has ended. Then `kept` is what is left of its steps.
    pub fn result(&self) -> Option<Result<(), ClientError>>
        ensures { result ≡ result_at self.now.stage }
    {
        match self.stage {
            Stage::Done(result) => Some(result),
            _ => None,
        }
    }
}

impl Position {
    /// Goes on in the run of its stage.
    fn run_on(&mut self, table: &ErstTable, request: Request)
        requires { is_sound_at self.old ≡ true }
        ensures comes { Comes (program_for table.now.entries request) request.given self.old.state self.old.left self.new.state self.new.left }
        ensures stage { self.new.stage ≡ self.old.stage }
        ensures kept { self.new.kept ≡ self.old.kept }
        ensures sound { is_sound_at self.new ≡ true }
        ensures settled { is_settled self.new.state ≡ true }
    {
        let program = program_for(table, request.action);
        self.state.settle(&program, request.given, &mut self.left);
    }

    /// Goes where the end of its run leads.
    fn turn(
        &mut self,
        table: &ErstTable,
        command: Command,
        timings: Option<(u32, u32)>,
        answer: Result<u64, RunStop>,
    )
        requires { is_sound_at self.old ≡ true }
        ensures turned { self.new ≡ turned_at table.now.entries command timings self.old answer }
        ensures sound { is_sound_at self.new ≡ true }
    {
        let stage = turned(command, timings, self.stage, answer);
        let left = steps_after(self.stage, self.kept, self.left);
        *self = Position::entered(table, command, stage, left);
    }
}

/// Where the run of a stage begins.
fn first_run(table: &ErstTable, request: Option<Request>) -> RunState
    ensures first { result ≡ first_run table.now.entries request }
    ensures sound { is_sound_state result ≡ true }
{
    match request {
        Some(request) => first_state(&program_for(table, request.action)),
        None => RunState::Ended(Ok(0)),
    }
}

/// The steps of a stage's run, of those that the command has.
fn steps_for(stage: Stage, left: Budget) -> Budget
    ensures { result ≡ steps_for stage left }
{
    match stage {
        Stage::Ending(_) => Budget::new(END_STEPS),
        _ => left,
    }
}

/// The steps that the command has after it.
fn steps_after(stage: Stage, before: Budget, after: Budget) -> Budget
    ensures { result ≡ steps_after stage before after }
{
    match stage {
        Stage::Ending(_) => before,
        _ => after,
    }
}
