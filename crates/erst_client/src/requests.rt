// A firmware's programs, run one after another.
ghost use Rattle.std.specs.Prelude.{◌≡◌};
ghost use Rattle.erst_entries.specs.Actions.{code_of};
ghost use Rattle.erst_entries.specs.Programs.{program_of};
ghost use Rattle.erst_interp.specs.Moments.{Between, moment};
ghost use Rattle.erst_client.specs.Requests.{Performs};

use apei_space::Space;
use erst_entries::{Action, ErstTable, Program};
use erst_interp::{Budget, RunStop, run};

/// An action, and the value that its program is given.
#[derive(Clone, Copy)]
pub struct Request {
    pub action: Action,
    pub given: u64,
}

/// The table's program of an action.
pub fn program_for(table: &ErstTable, action: Action) -> Program<'_>
    ensures { result ≡ program_of (code_of action) table.now.entries }
{
    table.program(action.code())
}

/// Runs the program of an action that is given no value.
pub fn ask<S: Space>(
    table: &ErstTable,
    action: Action,
    budget: &mut Budget,
    space: &mut S,
) -> Result<u64, RunStop>
    ensures { Between (Performs S.allows table.now.entries action 0) (moment budget.old (S.state space.old)) result
        (moment budget.new (S.state space.new)) }
{
    perform(table, action, 0, budget, space)
}

/// Runs the program of an action.
fn perform<S: Space>(
    table: &ErstTable,
    action: Action,
    given: u64,
    budget: &mut Budget,
    space: &mut S,
) -> Result<u64, RunStop>
    ensures { Between (Performs S.allows table.now.entries action given) (moment budget.old (S.state space.old)) result
        (moment budget.new (S.state space.new)) }
{
    run(&program_for(table, action), given, budget, space)
}
