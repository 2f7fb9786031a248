// A run of a program.
ghost use Rattle.std.specs.Prelude.{◌≡◌, ◌<◌, ◌≤◌, ◌^◌, ℕ, false, Err, OnOk};
ghost use Rattle.base_model.specs.Faults.{Rose};
ghost use Rattle.apei_space.specs.Accesses.{Reaches};
ghost use Rattle.erst_interp.specs.Moments.{Between, moment};
ghost use Rattle.erst_interp.specs.Steps.{Executes};
ghost use Rattle.erst_interp.specs.Runs.{Run, may_be_empty};

use crate::budgets::Budget;
use crate::configurations::{Configuration, Task};
use crate::instructions::{begun, resumed};
use crate::states::Progress;
use crate::stops::RunStop;
use crate::turns::end_at;
use apei_space::{Space, SpaceFault};
use erst_entries::Program;

/// Runs a program on a space: its answer is the last result, or the value that it was given where there was none. It
/// takes steps from the budget, one for each instruction, one for each further comparison of STALL_WHILE_TRUE, and one
/// for each 64 bytes or part of 64 that MOVE_DATA moves.
pub fn run<S: Space>(
    program: &Program<'_>,
    given: u64,
    budget: &mut Budget,
    space: &mut S,
) -> Result<u64, RunStop>
    ensures run { Between (Run S.allows program.now given) (moment budget.old (S.state space.old)) result
        (moment budget.new (S.state space.new)) }

    // So it is accesses one after another, only spends steps, and answers a device's fault only where the space's count
    // of faults rose.
    ensures reaches { Reaches S.allows (S.state space.old) (S.state space.new) }
    ensures spends { budget.new ≤ budget.old }
    ensures spends_some { may_be_empty program.now.action ≡ false → OnOk result (budget.new < budget.old) }
    ensures never_falls { S.faults (S.state space.old) ≤ S.faults (S.state space.new) }
    ensures device { (index : ℕ) → result ≡ Err (RunStop.Space index SpaceFault.Device)
        → Rose (S.faults (S.state space.old)) (S.faults (S.state space.new)) }
{
    walk(program, given, budget, space)
}

/// The run itself.
#[tactic(auto, using(crate::proofs::Rules::runs))]
fn walk<S: Space>(
    program: &Program<'_>,
    given: u64,
    budget: &mut Budget,
    space: &mut S,
) -> Result<u64, RunStop>
    ensures { Between (Run S.allows program.now given) (moment budget.old (S.state space.old)) result
        (moment budget.new (S.state space.new)) }
{
    let action = program.action();
    if program.is_empty() && !may_be_empty(action) {
        return Err(RunStop::NoAction {
            code: u64::from(action),
        });
    }
    let mut at = Configuration::begin();
    'instructions: loop {
        if let Some(result) = end_at(program, given, &at, budget) {
            return result;
        }
        let task = Task::of(program, given, at);
        match execute(&task, budget, space) {
            Ok(next) => at = next,
            Err(stop) => return Err(stop),
        }
    }
}

/// Carries out an instruction, whose first step was taken from the budget.
fn execute<S: Space>(
    task: &Task,
    budget: &mut Budget,
    space: &mut S,
) -> Result<Configuration, RunStop>
    requires { task.now.at.place < 2 ^ 63 }
    ensures { Between (Executes S.allows task.now) (moment budget.old (S.state space.old)) result
        (moment budget.new (S.state space.new)) }
{
    let first = match begun(task) {
        Progress::Done(next) => return Ok(next),
        Progress::Stopped(stop) => return Err(stop),
        Progress::Awaits(first) => first,
    };

    // Most instructions have one access, which is made apart from the loop: that is quicker.
    let answer = first.demand(task).make(space);
    let mut awaited = match resumed(task, &first, budget, answer) {
        Progress::Done(next) => return Ok(next),
        Progress::Stopped(stop) => return Err(stop),
        Progress::Awaits(second) => second,
    };
    'accesses: loop {
        let answer = awaited.demand(task).make(space);
        match resumed(task, &awaited, budget, answer) {
            Progress::Done(next) => return Ok(next),
            Progress::Stopped(stop) => return Err(stop),
            Progress::Awaits(further) => awaited = further,
        }
    }
}

/// Whether a table may leave an action without entries: BEGIN_WRITE_OPERATION, BEGIN_READ_OPERATION,
/// BEGIN_CLEAR_OPERATION, END_OPERATION and BEGIN_DUMMY_WRITE_OPERATION.
pub fn may_be_empty(action: u8) -> bool
    ensures { result ≡ may_be_empty action }
{
    matches!(action, 0x0 | 0x1 | 0x2 | 0x3 | 0xb)
}
