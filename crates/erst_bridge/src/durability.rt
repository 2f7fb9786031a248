// Laws on the turns of a bridge over a machine: the functions do nothing, and their clauses are the laws.
ghost use Rattle.std.specs.Prelude.{ℕ, List};
ghost use Rattle.ghes_ack.specs.Machine.{Machine as HandoverMachine};
ghost use Rattle.erst_bridge.specs.BridgedRuns.{BridgedTurn, IsMadeTurn, BridgedRun, IsMadeRun, IsByOwnClient};
ghost use Rattle.erst_bridge.specs.BridgeTheorems.{IsOneList, EachLossShowsItsTurns, EachStoredBlockStays, StaysCovered, LeavesStored, KeepsInOrder, Balances};
ghost use Rattle.erst_bridge.specs.BridgeTheorems.{EachLossShowsAPrefix, TooLongIsKept, NoneThatFitsIsTooLong, HardwareRose, NeverForWantOfSteps, OutIsOfTheLast, TheLastIsOut};

use erst_commands::own_programs_run_through;
use flash_model::Flash;

/// Whatever the turns of a bridge and of the firmware do to the machine is one list of accesses and turns.
pub fn bridged_turns_are_one_list<F: Flash>()
    ensures { (run : BridgedRun) → IsMadeRun F.tells run → IsOneList F.tells run }
{}

/// Power lost at any flash step shows the records after the turns that had ended by then, or as the next one leaves them where nothing
/// fails: a turn that was answered `Stored` or `Kept` is a write of its own.
pub fn bridged_turns_are_shown<F: Flash>()
    ensures { F.tells → (run : BridgedRun) → IsByOwnClient run.client run.first → IsMadeRun F.tells run
        → EachLossShowsItsTurns run }
{
    own_programs_run_through::<F>();
}

/// A turn that was answered `Stored` is one of a held block, whose record power lost at any step from the end of the turn on leaves stored,
/// whatever turns come behind it. So does power lost while the reader gives the block back.
pub fn a_stored_block_stays<F: Flash>()
    // From the turn that stored it on.
    ensures stored { F.tells → (turn : BridgedTurn) → IsByOwnClient turn.client turn.old → IsMadeTurn F.tells turn
        → EachStoredBlockStays F.tells turn }
    // Whenever the reader gives a block back, the record of the block that it took last is stored.
    ensures covered { F.tells → (run : BridgedRun) → IsByOwnClient run.client run.first → IsMadeRun F.tells run
        → (m : HandoverMachine) → StaysCovered run m }
    // And from there on too.
    ensures stays { F.tells → (run : BridgedRun) → IsByOwnClient run.client run.first → IsMadeRun F.tells run
        → (id : ℕ) (bytes : List ℕ) → LeavesStored id bytes run }
{
    own_programs_run_through::<F>();
}

/// A block is acknowledged only behind the storing of its record: as many are acknowledged as were stored, but for one that is still to be
/// acknowledged; and as many are stored as were taken, but for one that is held.
pub fn what_is_acknowledged_was_stored<F: Flash>()
    ensures order { (run : BridgedRun) → IsMadeRun F.tells run → (m : HandoverMachine) → KeepsInOrder run m }
    ensures sums { (run : BridgedRun) → IsMadeRun F.tells run → Balances run }
{}

/// Also where nobody was told how far the turns came: power lost at any step from their start on shows the records from before them, with
/// those of the first blocks that were held, or submitted and not yet taken.
pub fn bridged_turns_show_a_prefix<F: Flash>()
    ensures { F.tells → (run : BridgedRun) → IsByOwnClient run.client run.first → IsMadeRun F.tells run
        → (m : HandoverMachine) → EachLossShowsAPrefix run m }
{
    own_programs_run_through::<F>();
}

/// Why the record of a held block isn't stored. It is kept as too long exactly where it is longer than the client's range; for a failure of
/// the flash only where the flash's count of faults rose in that very turn; and where its steps are enough, never for want of steps or of
/// time. `Out` comes exactly where the block's identifier would be 2^64 - 1.
pub fn a_kept_block_has_its_cause<F: Flash>()
    ensures too_long { (turn : BridgedTurn) → IsMadeTurn F.tells turn → TooLongIsKept turn }
    ensures fits { F.tells → (turn : BridgedTurn) → IsByOwnClient turn.client turn.old → IsMadeTurn F.tells turn
        → NoneThatFitsIsTooLong turn }
    ensures hardware { (turn : BridgedTurn) → IsMadeTurn F.tells turn → HardwareRose turn }
    ensures enough { (turn : BridgedTurn) → IsByOwnClient turn.client turn.old → IsMadeTurn F.tells turn
        → NeverForWantOfSteps turn }
    ensures out { (turn : BridgedTurn) → IsMadeTurn F.tells turn → OutIsOfTheLast turn }
    ensures last { (turn : BridgedTurn) → IsMadeTurn F.tells turn → TheLastIsOut turn }
{
    own_programs_run_through::<F>();
}
