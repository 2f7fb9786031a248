// Between two instructions.
ghost use Rattle.std.specs.Prelude.{◌≡◌, ◌<◌, ◌^◌, Some, length, slice_get};
ghost use Rattle.erst_interp.specs.Runs.{task_of};
ghost use Rattle.erst_interp.specs.Told.{Turns};

use crate::budgets::Budget;
use crate::configurations::{Configuration, Task};
use crate::stops::RunStop;
use erst_entries::Program;

/// The run's answer, if it ends where it stands. Else it comes to an instruction, whose first step is taken from the budget.
#[tactic(auto, using(crate::proofs::Rules::turns))]
#[inline(always)]
pub fn end_at(
    program: &Program<'_>,
    given: u64,
    at: &Configuration,
    budget: &mut Budget,
) -> Option<Result<u64, RunStop>>
    ensures { Turns program.now given at.now budget.old result budget.new }
{
    if at.place >= program.len() {
        return Some(Ok(at.result.unwrap_or(given)));
    }
    if !budget.take(1) {
        return Some(Err(RunStop::Budget));
    }
    None
}

impl Task {
    /// The instruction that a run comes to.
    #[inline(always)]
    pub fn of(program: &Program<'_>, given: u64, at: Configuration) -> Task
        requires { at.place < length program.now.entries }
        ensures task { result ≡ task_of program.now given result.entry at }
        ensures here { slice_get program.now.entries at.place ≡ Some result.entry }
        ensures place { result.at.place < 2 ^ 63 }
    {
        Task {
            entry: program.entry(at.place),
            given,
            len: program.len(),
            at,
        }
    }
}
