// A run that makes no access itself.
ghost use Rattle.std.specs.Prelude.{◌≡◌, ◌<◌, ◌^◌, true};
ghost use Rattle.erst_interp.specs.Continuing.{is_sound};
ghost use Rattle.erst_interp.specs.Told.{first_state, state_of, demanded, ended, answered, is_settled, is_sound_state, Comes};

use crate::budgets::Budget;
use crate::configurations::{Configuration, Task};
use crate::demands::Demand;
use crate::instructions::{begun, resumed};
use crate::runs::may_be_empty;
use crate::states::{Progress, RunState};
use crate::stops::RunStop;
use crate::turns::end_at;
use apei_space::SpaceFault;
use erst_entries::Program;

/// A run that tells which access comes next, and goes on by its answer: for those who have no space to hand over. It has
/// no program of its own, and is given the same one at each call.
#[derive(Clone, Copy)]
pub struct Runner {
    /// The value that the run was given.
    pub given: u64,
    pub state: RunState,
    /// The steps that are left.
    pub budget: Budget,
    pub ghost sound: { is_sound_state state ≡ true },
}

impl Runner {
    /// A run that has done nothing yet.
    pub fn new(program: &Program<'_>, given: u64, budget: Budget) -> Runner
        ensures given { result.given ≡ given }
        ensures state { result.state ≡ first_state program.now }
        ensures budget { result.budget ≡ budget }
    {
        let state = first_state(program);
        Runner {
            given,
            state,
            budget,
        }
    }

    /// Goes on up to the next access, or to the end.
    pub fn settle(&mut self, program: &Program<'_>)
        ensures comes { Comes program.now self.old.given self.old.state self.old.budget self.new.state self.new.budget }
        ensures given { self.new.given ≡ self.old.given }
        ensures settled { is_settled self.new.state ≡ true }
    {
        self.state.settle(program, self.given, &mut self.budget);
    }

    /// The access that the run waits for.
    pub fn demand(&self) -> Option<Demand>
        ensures { result ≡ demanded self.now.state }
    {
        demanded(&self.state)
    }

    /// Takes the answer of the access that the run waits for.
    pub fn answer(&mut self, answer: Result<u64, SpaceFault>)
        ensures state { self.new.state ≡ (answered self.old.state self.old.budget answer).0 }
        ensures left { self.new.budget ≡ (answered self.old.state self.old.budget answer).1 }
        ensures given { self.new.given ≡ self.old.given }
    {
        self.state.answer(&mut self.budget, answer);
    }

    /// The run's answer, once it has ended.
    pub fn result(&self) -> Option<Result<u64, RunStop>>
        ensures { result ≡ ended self.now.state }
    {
        match self.state {
            RunState::Ended(result) => Some(result),
            _ => None,
        }
    }
}

/// Where a run begins.
pub fn first_state(program: &Program<'_>) -> RunState
    ensures first { result ≡ first_state program.now }
    ensures sound { is_sound_state result ≡ true }
{
    let action = program.action();
    if program.is_empty() && !may_be_empty(action) {
        RunState::Ended(Err(RunStop::NoAction {
            code: u64::from(action),
        }))
    } else {
        RunState::Ready(Configuration::begin())
    }
}

/// The access that a run waits for.
pub fn demanded(state: &RunState) -> Option<Demand>
    ensures { result ≡ demanded state.now }
{
    match state {
        RunState::Awaiting(task, awaited) => Some(awaited.demand(task)),
        _ => None,
    }
}

impl RunState {
    /// Goes on up to the next access, or to the end.
    #[tactic(auto, using(crate::proofs::Rules::comings))]
    pub fn settle(&mut self, program: &Program<'_>, given: u64, budget: &mut Budget)
        requires { is_sound_state self.old ≡ true }
        ensures comes { Comes program.now given self.old budget.old self.new budget.new }
        ensures settled { is_settled self.new ≡ true }
        ensures sound { is_sound_state self.new ≡ true }
    {
        while let RunState::Ready(at) = *self {
            if let Some(result) = end_at(program, given, &at, budget) {
                *self = RunState::Ended(result);
                return;
            }
            let task = Task::of(program, given, at);
            *self = state_of(&task, begun(&task));
        }
    }

    /// Takes the answer of the access that the run waits for.
    #[tactic(auto, using(std::proofs::lemmas::Bool::Decides::nat_tests))]
    pub fn answer(&mut self, budget: &mut Budget, answer: Result<u64, SpaceFault>)
        requires { is_sound_state self.old ≡ true }
        ensures state { self.new ≡ (answered self.old budget.old answer).0 }
        ensures left { budget.new ≡ (answered self.old budget.old answer).1 }
        ensures sound { is_sound_state self.new ≡ true }
    {
        if let RunState::Awaiting(task, awaited) = self {
            match resumed(task, awaited, budget, answer) {
                Progress::Done(next) => *self = RunState::Ready(next),
                Progress::Awaits(further) => *awaited = further,
                Progress::Stopped(stop) => *self = RunState::Ended(Err(stop)),
            }
        }
    }
}

/// Where a run stands by the progress of its instruction.
#[tactic(auto, using(std::proofs::lemmas::Bool::Decides::nat_tests))]
fn state_of(task: &Task, progress: Progress) -> RunState
    requires place { task.now.at.place < 2 ^ 63 }
    requires sound { is_sound progress ≡ true }
    ensures state { result ≡ state_of task.now progress }
    ensures sound { is_sound_state result ≡ true }
{
    match progress {
        Progress::Done(next) => RunState::Ready(next),
        Progress::Awaits(awaited) => RunState::Awaiting(*task, awaited),
        Progress::Stopped(stop) => RunState::Ended(Err(stop)),
    }
}
