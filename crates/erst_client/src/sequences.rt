// The sequence of a command over a space.
ghost use Rattle.std.specs.Prelude.{◌≡◌};
ghost use Rattle.erst_interp.specs.Moments.{Between, moment};
ghost use Rattle.erst_client.specs.Stages.{requests_of};
ghost use Rattle.erst_client.specs.Reaching.{Passes, Runs};
ghost use Rattle.erst_client.specs.Sequences.{Sequence};

use crate::errors::ClientError;
use crate::requests::{Request, program_for};
use crate::stages::{Command, PAUSE, Part, Stage, request_for, turned};
use apei_space::Space;
use erst_entries::ErstTable;
use erst_interp::{Budget, RunStop, run};

/// The steps that END_OPERATION has of its own.
pub const END_STEPS: u64 = 64;

/// Makes the requests of a command, waits until the firmware isn't busy, and asks for the command status; then runs
/// END_OPERATION, with 64 steps of its own, however that went.
pub fn sequence<S: Space>(
    table: &ErstTable,
    timings: Option<(u32, u32)>,
    command: Command,
    budget: &mut Budget,
    space: &mut S,
) -> Result<(), ClientError>
    ensures { Between (Sequence S.allows table.now.entries timings (requests_of command))
        (moment budget.old (S.state space.old)) result (moment budget.new (S.state space.new)) }
{
    let mut stage = Stage::Requesting(Part::Begin);
    'stages: loop {
        match request_for(command, stage) {
            Some(request) => {
                let answer = perform(table, stage, request, budget, space);
                stage = turned(command, timings, stage, answer);
            }
            None => match stage {
                Stage::Waiting(waited) => {
                    pause(timings, space);
                    stage = Stage::Checking(waited);
                }
                Stage::Done(result) => return result,
                _ => unreachable!(),
            },
        }
    }
}

/// Runs the program of a stage.
fn perform<S: Space>(
    table: &ErstTable,
    stage: Stage,
    request: Request,
    budget: &mut Budget,
    space: &mut S,
) -> Result<u64, RunStop>
    ensures { Between (Runs S.allows table.now.entries stage request) (moment budget.old (S.state space.old)) result
        (moment budget.new (S.state space.new)) }
{
    let program = program_for(table, request.action);
    match stage {
        Stage::Ending(_) => run(&program, request.given, &mut Budget::new(END_STEPS), space),
        _ => run(&program, request.given, budget, space),
    }
}

/// Waits a little before the firmware is asked again, where it names its timings.
fn pause<S: Space>(timings: Option<(u32, u32)>, space: &mut S)
    ensures { Passes S.allows timings (S.state space.old) (S.state space.new) }
{
    if timings.is_some() {
        space.wait(PAUSE);
    }
}
