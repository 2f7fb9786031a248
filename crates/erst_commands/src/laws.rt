// Laws on the machine's own table: the functions do nothing, and their clauses are the laws.
ghost use Rattle.erst_commands.specs.Operations.{requests_of};
ghost use Rattle.erst_machine.specs.OwnTables.{own_entries};
ghost use Rattle.erst_client.specs.Steps.{steps_needed};
ghost use Rattle.std.specs.Prelude.{ℕ};
ghost use Rattle.erst_machine.specs.MachineState.{MachineState, IsMachine};
ghost use Rattle.erst_commands.specs.OwnPrograms.{OwnProgramsRun};
ghost use Rattle.erst_commands.specs.Attached.{own_client};
ghost use Rattle.erst_commands.specs.Runs.{own_table};
ghost use Rattle.erst_commands.specs.Theorems.{AttachingFindsItsClient, EachCountIsTheMaps, EachNextIsTheMaps, EachWriteIsTheMaps, EachClearIsTheMaps, EachDummyWriteChangesNothing, EachReadIsTheMaps};
ghost use Rattle.erst_commands.specs.Theorems.{ClientWritesAsTheMap, ClientReadsAsTheMap, EachFramedRecordIsShownWhole, StepsAreEnough, NoChangeWithItsStepsIsStopped};
ghost use Rattle.erst_commands.specs.Theorems.{EachSequenceHasItsCause, EachCountHasItsCause, EachNextHasItsCause, EachWriteHasItsCause, EachReadHasItsCause};
ghost use Rattle.erst_commands.specs.Theorems.{EachSequenceGoesThrough, EachCountGoesThrough, EachNextGoesThrough, EachWriteGoesThrough, EachReadGoesThrough};

use erst_interp::a_straight_program_runs_through;
use erst_machine::Machine;
use flash_model::Flash;

/// A run of a program of the machine's own table makes its action, with the value given before it or VALUE read behind it, by one
/// step an entry, or its budget ran out on the way.
pub fn own_programs_run_through<F: Flash>()
    ensures { OwnProgramsRun F.tells }
{
    a_straight_program_runs_through::<Machine<F>>();
}

/// Attaching to the machine's own table finds the machine's log range and timings, with any budget of eight steps or more.
pub fn attaching_never_fails<F: Flash>()
    ensures { (first : MachineState) → AttachingFindsItsClient F.tells first }
{
    own_programs_run_through::<F>();
}

/// A count answers how many records the machine's flash holds; `Hardware` only where its count of faults rose, and a stop only where
/// fewer than two steps were given.
pub fn a_count_is_the_maps<F: Flash>()
    ensures { F.tells → (first : MachineState) → EachCountIsTheMaps (own_table F.tells) first }
{
    own_programs_run_through::<F>();
}

/// Next answers the least stored identifier above the cursor, or the end; the rest as of a count.
pub fn a_next_is_the_maps<F: Flash>()
    ensures { F.tells → (first : MachineState) → EachNextIsTheMaps (own_table F.tells) first }
{
    own_programs_run_through::<F>();
}

/// A write's sequence, from a log range that begins with the record: it is answered as the map's write, power lost at any flash step
/// on the way leaves the records from before it or after it, and it is stopped only where its steps are too few.
pub fn a_write_is_the_maps<F: Flash>()
    ensures { F.tells → (first : MachineState) → EachWriteIsTheMaps (own_table F.tells) first }
{
    own_programs_run_through::<F>();
}

/// A clear's sequence; the same as of a write.
pub fn a_clear_is_the_maps<F: Flash>()
    ensures { F.tells → (first : MachineState) → EachClearIsTheMaps (own_table F.tells) first }
{
    own_programs_run_through::<F>();
}

/// A client's write over the machine: bytes that are no one record, or too long, are refused and change nothing; a record is put into
/// the log range, marked, and written as the map does.
pub fn a_client_writes_as_the_map<F: Flash>()
    ensures { F.tells → (first : MachineState) → IsMachine first → ClientWritesAsTheMap (own_table F.tells)
        (own_client first) first }
{
    own_programs_run_through::<F>();
}

/// A dummy write's sequence goes through and leaves the store with its execution given up.
pub fn a_dummy_write_changes_nothing<F: Flash>()
    ensures { (first : MachineState) → EachDummyWriteChangesNothing (own_table F.tells) first }
{
    own_programs_run_through::<F>();
}

/// A read's sequence: the log range then begins with the record, and the cursor is at its identifier; or it is refused as by the map.
pub fn a_read_is_the_maps<F: Flash>()
    ensures { F.tells → (first : MachineState) → IsMachine first → EachReadIsTheMaps (own_table F.tells) first }
{
    own_programs_run_through::<F>();
}

/// A client's read over the machine: after its sequence the record's length is read from the log range, and so many bytes of it are
/// copied out.
pub fn a_client_reads_as_the_map<F: Flash>()
    ensures { F.tells → (first : MachineState) → IsMachine first → ClientReadsAsTheMap (own_table F.tells)
        (own_client first) first }
{
    own_programs_run_through::<F>();
}

/// On every flash, whether it tells its content or not: its count of faults never falls, and a call is answered `Hardware` only where
/// the count rose.
pub fn hardware_has_its_cause<F: Flash>()
    ensures sequence { (first : MachineState) → EachSequenceHasItsCause (own_table F.tells) first }
    ensures count { (first : MachineState) → EachCountHasItsCause (own_table F.tells) first }
    ensures next { (first : MachineState) → EachNextHasItsCause (own_table F.tells) first }
    ensures write { (first : MachineState) → EachWriteHasItsCause (own_table F.tells) (own_client first) first }
    ensures read { (first : MachineState) (id : ℕ) → EachReadHasItsCause (own_table F.tells)
        (own_client first) id first }
{
    own_programs_run_through::<F>();
}

/// On every flash, whether it tells its content or not: with the steps that are enough by the machine's timings a command is never
/// stopped, and never late. What the store has begun itself says how often the device is busy.
pub fn enough_steps_go_through<F: Flash>()
    ensures sequence { (first : MachineState) → IsMachine first → EachSequenceGoesThrough (own_table F.tells) first }
    ensures count { (first : MachineState) → EachCountGoesThrough (own_table F.tells) first }
    ensures next { (first : MachineState) → EachNextGoesThrough (own_table F.tells) first }
    ensures write { (first : MachineState) → IsMachine first → EachWriteGoesThrough (own_table F.tells)
        (own_client first) first }
    ensures read { (first : MachineState) → IsMachine first → EachReadGoesThrough (own_table F.tells)
        (own_client first) first }
{
    own_programs_run_through::<F>();
}

/// A record whose header says its length is shown whole by a log range that begins with it.
pub fn a_framed_record_is_shown_whole()
    ensures { EachFramedRecordIsShownWhole }
{}

/// The steps that a client takes by the machine's timings are enough for each of its commands, and a write or clear that has the steps
/// of its changes is not stopped.
pub fn enough_steps_are_enough()
    ensures enough { (state : MachineState) → StepsAreEnough (λ operation checks. steps_needed own_entries (requests_of operation) checks) state }
    ensures not_stopped { (first : MachineState) → NoChangeWithItsStepsIsStopped first }
{}
