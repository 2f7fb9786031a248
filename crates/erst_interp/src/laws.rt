// Laws on runs: the functions do nothing, and their clauses are the laws.
ghost use Rattle.std.specs.Prelude.{◌≡◌, ℕ, ◌*◌, ◌<◌, ◌≤◌, length, Result};
ghost use Rattle.apei_space.specs.declared.faults.SpaceFault.{SpaceFault};
ghost use Rattle.erst_entries.specs.Programs.{Listed};
ghost use Rattle.erst_interp.specs.declared.configurations.Task.{Task};
ghost use Rattle.erst_interp.specs.declared.states.Awaited.{Awaited};
ghost use Rattle.erst_interp.specs.declared.states.RunState.{RunState};
ghost use Rattle.erst_interp.specs.declared.states.RunState.TheVariants.{Awaiting};
ghost use Rattle.erst_interp.specs.declared.stops.RunStop.{RunStop};
ghost use Rattle.erst_interp.specs.Moments.{Between, moment};
ghost use Rattle.erst_interp.specs.Demands.{call_of};
ghost use Rattle.erst_interp.specs.Continuing.{demand_of};
ghost use Rattle.erst_interp.specs.Runs.{Run};
ghost use Rattle.erst_interp.specs.Straight.{AreStraight, RanStraight};
ghost use Rattle.erst_interp.specs.Told.{first_state, answered, bound, Comes, Stands};

use apei_space::Space;

/// A run of a straight program does what its entries do, one after another, or as many of them as it has steps for.
pub fn a_straight_program_runs_through<S: Space>()
    ensures { (program : Listed) (straight : AreStraight S.allows program.entries) (given budget : ℕ)
        (first : S.State) (answer : Result ℕ RunStop) (left : ℕ) (last : S.State) → 0 < length program.entries
        → Between (Run S.allows program given) (moment budget first) answer (moment left last)
        → Between (RanStraight S.allows program straight given) (moment budget first) answer (moment left last) }
{}

/// A run that tells its accesses is a run over whatever space answers them: a `Runner` stands where the run begins, what it
/// does without an access keeps it on the run, and so does each answer that the space may give to the access that it tells.
/// Once it has ended, it was the run.
pub fn a_told_run_is_a_run<S: Space>()
    ensures begins { (program : Listed) (given budget : ℕ) (first : S.State)
        → Stands S.allows program given budget first (first_state program) budget first }
    ensures comes { (program : Listed) (given budget : ℕ) (first now : S.State) (old : RunState) (before : ℕ) (state : RunState)
        (left : ℕ) → Comes program given old before state left → Stands S.allows program given budget first old before now
        → Stands S.allows program given budget first state left now }
    ensures answered { (program : Listed) (given budget : ℕ) (first : S.State) (task : Task) (awaited : Awaited) (left : ℕ)
        (now : S.State) (answer : Result ℕ SpaceFault) (last : S.State)
        → Stands S.allows program given budget first (Awaiting task awaited) left now
        → S.allows now (call_of (demand_of task awaited) answer) last
        → Stands S.allows program given budget first (answered (Awaiting task awaited) left answer).0
        (answered (Awaiting task awaited) left answer).1 last }
{}

/// It ends whatever it is answered: a run tells fewer than four accesses for each step of its budget. One number begins
/// there, does not rise without an access, and falls with each answer.
pub fn a_told_run_ends()
    ensures begins { (program : Listed) (budget : ℕ) → bound (first_state program) budget ≤ 4 * budget }
    ensures comes { (program : Listed) (given : ℕ) (old : RunState) (before : ℕ) (state : RunState) (left : ℕ)
        → Comes program given old before state left → bound state left ≤ bound old before }
    ensures answered { (task : Task) (awaited : Awaited) (left : ℕ) (answer : Result ℕ SpaceFault)
        → bound (answered (Awaiting task awaited) left answer).0 (answered (Awaiting task awaited) left answer).1
        < bound (Awaiting task awaited) left }
{}
