// Laws on the table over the machine: the functions do nothing, and their clauses are the laws.
ghost use Rattle.std.specs.Prelude.{ℕ};
ghost use Rattle.erst_machine.specs.MachineState.{MachineState, IsMachine};
ghost use Rattle.erst_commands.specs.Operations.{WriteOperation, ClearOperation};
ghost use Rattle.erst_commands.specs.Theorems.{EachCountIsTheMaps, EachNextIsTheMaps, StepsAreEnough};
ghost use Rattle.erst_commands.specs.Theorems.{EachSequenceHasItsCause, EachCountHasItsCause, EachNextHasItsCause, EachWriteHasItsCause, EachReadHasItsCause};
ghost use Rattle.erst_commands.specs.Theorems.{EachSequenceGoesThrough, EachCountGoesThrough, EachNextGoesThrough, EachWriteGoesThrough, EachReadGoesThrough};
ghost use Rattle.erst_shadow.specs.ShadowCommands.{pieces_in, shadow_client};
ghost use Rattle.erst_shadow.specs.ShadowRuns.{table_of, table_in, shadow_steps};
ghost use Rattle.erst_shadow.specs.ShadowTheorems.{AttachingFindsShadowClient, EachSequenceIsTheMachinesOwn, EachClearIsAsOwn, EachDummyWriteIsAsOwn, ClientWritesByPieces, ClientReadsByPieces};
ghost use Rattle.erst_shadow.specs.ShadowTheorems.{EachChangeLeavesOneOfTwo, EachReadLeavesTheRecords, EachDummyWriteGivesUp, EachChangeNeedsExactly, EachDummyWriteNeedsExactly, EachReadNeedsExactly};

use erst_commands::own_programs_run_through;
use erst_interp::a_straight_program_runs_through;
use erst_machine::Machine;
use flash_model::Flash;

/// Attaching to the table finds the scratch memory as the log range and the machine's timings, with any budget of eight steps or more.
pub fn attaching_never_fails<F: Flash>()
    ensures { (first : MachineState) → IsMachine first → AttachingFindsShadowClient F.tells first }
{
    a_straight_program_runs_through::<Machine<F>>();
    own_programs_run_through::<F>();
}

/// On every flash, whether it tells its content or not: a sequence by this table is the same sequence by the machine's own table, from
/// the machine whose log range already begins with the record of its scratch memory, and takes the steps of the two moves besides.
pub fn a_sequence_is_the_machines_own<F: Flash>()
    ensures { (first : MachineState) → IsMachine first → EachSequenceIsTheMachinesOwn F.tells first }
{
    own_programs_run_through::<F>();
}

/// A client's write: bytes that are no one record, or longer than the pieces, are refused and change nothing; a record is put into the
/// scratch memory, marked, and written as the map does.
pub fn a_client_writes_as_the_map<F: Flash>()
    ensures { F.tells → (first : MachineState) → IsMachine first → ClientWritesByPieces F.tells first }
{
    own_programs_run_through::<F>();
}

/// A client's read: a record longer than the pieces is refused by its length, when the cursor has moved, and else it is read as by the map.
pub fn a_client_reads_as_the_map<F: Flash>()
    ensures { F.tells → (first : MachineState) → IsMachine first → ClientReadsByPieces F.tells first }
{
    own_programs_run_through::<F>();
}

/// A clear's sequence is the map's.
pub fn a_clear_is_the_maps<F: Flash>()
    ensures { F.tells → (first : MachineState) → IsMachine first → EachClearIsAsOwn F.tells first }
{
    own_programs_run_through::<F>();
}

/// A dummy write's sequence goes through and leaves the store with its execution given up.
pub fn a_dummy_write_changes_nothing<F: Flash>()
    ensures { (first : MachineState) → IsMachine first → EachDummyWriteIsAsOwn F.tells first }
{
    own_programs_run_through::<F>();
}

/// A count is the machine's own, in two steps, with a table of any number of pieces.
pub fn a_count_is_the_maps<F: Flash>()
    ensures { F.tells → (pieces : ℕ) (first : MachineState) → EachCountIsTheMaps (table_of F.tells pieces) first }
{
    own_programs_run_through::<F>();
}

/// Next is the machine's own; the rest as of a count.
pub fn a_next_is_the_maps<F: Flash>()
    ensures { F.tells → (pieces : ℕ) (first : MachineState) → EachNextIsTheMaps (table_of F.tells pieces) first }
{
    own_programs_run_through::<F>();
}

/// Power lost at any flash step of a write or clear leaves the records from before it or after it, wherever its programs stop; of a read
/// it leaves the records, and a dummy write gives up what the store had begun.
pub fn power_lost_leaves_one_of_two()
    ensures change { (first : MachineState) → EachChangeLeavesOneOfTwo first }
    ensures read { (first : MachineState) → EachReadLeavesTheRecords first }
    ensures dummy { (first : MachineState) → EachDummyWriteGivesUp first }
{}

/// The steps that a command needs: 16 a piece, 18, and 2 for each check whether it is still busy; a read 2 more. A write or clear that
/// is taken has as many checks as changes, and one at least. With as many steps it goes through, and one that goes through took them.
pub fn commands_need_exactly()
    ensures write { (first : MachineState) (id : ℕ) → EachChangeNeedsExactly WriteOperation id first }
    ensures clear { (first : MachineState) (id : ℕ) → EachChangeNeedsExactly (ClearOperation id) id first }
    ensures dummy { (first : MachineState) → EachDummyWriteNeedsExactly first }
    ensures read { (first : MachineState) → EachReadNeedsExactly first }
{}

/// The steps that a client takes by the machine's timings are enough for each of its commands.
pub fn enough_steps_are_enough()
    ensures { (state : MachineState) → StepsAreEnough (shadow_steps (pieces_in state)) state }
{}

/// On every flash, whether it tells its content or not: with those steps a command is never stopped, and never late. A count and a next are
/// the machine's own, with a table of any number of pieces.
pub fn enough_steps_go_through<F: Flash>()
    ensures sequence { (first : MachineState) → IsMachine first
        → EachSequenceGoesThrough (table_in F.tells first) first }
    ensures count { (pieces : ℕ) (first : MachineState) → EachCountGoesThrough (table_of F.tells pieces) first }
    ensures next { (pieces : ℕ) (first : MachineState) → EachNextGoesThrough (table_of F.tells pieces) first }
    ensures write { (first : MachineState) → IsMachine first → EachWriteGoesThrough (table_in F.tells first)
        (shadow_client first) first }
    ensures read { (first : MachineState) → IsMachine first → EachReadGoesThrough (table_in F.tells first)
        (shadow_client first) first }
{
    own_programs_run_through::<F>();
}

/// On every flash, whether it tells its content or not: its count of faults never falls, and a call is answered `Hardware` only where
/// the count rose.
pub fn hardware_has_its_cause<F: Flash>()
    ensures sequence { (first : MachineState) → IsMachine first
        → EachSequenceHasItsCause (table_in F.tells first) first }
    ensures count { (pieces : ℕ) (first : MachineState) → EachCountHasItsCause (table_of F.tells pieces) first }
    ensures next { (pieces : ℕ) (first : MachineState) → EachNextHasItsCause (table_of F.tells pieces) first }
    ensures write { (first : MachineState) → IsMachine first → EachWriteHasItsCause (table_in F.tells first)
        (shadow_client first) first }
    ensures read { (first : MachineState) → IsMachine first → (id : ℕ) → EachReadHasItsCause (table_in F.tells first)
        (shadow_client first) id first }
{
    own_programs_run_through::<F>();
}
