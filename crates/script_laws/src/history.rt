// Laws on whole histories: the functions do nothing, and their clauses are the laws.
ghost use Rattle.std.specs.Prelude.{◌≡◌, ℕ, ◌≤◌, Bool, List, Option, None, map};
ghost use Rattle.base_model.specs.Flash.{CrashImage, IsLater, FlashState};
ghost use Rattle.std.specs.List.{AllZip};
ghost use Rattle.erst_bridge.specs.Bridges.{Off};
ghost use Rattle.flash_model.specs.declared.geometry.Geometry.{Geometry as AnyGeometry};
ghost use Rattle.flash_model.specs.Layouts.{layout_of};
ghost use Rattle.record_model.specs.Records.{Stored, second_copies};
ghost use Rattle.record_store.specs.Store.{records_of as records_in};
ghost use Rattle.apei_space.specs.Accesses.{Move, Trail};
ghost use Rattle.erst_machine.specs.MachineState.{MachineState, IsMachine, records_of, told_of};
ghost use Rattle.erst_machine.specs.Events.{Event, Happens};
ghost use Rattle.erst_machine.specs.Shown.{IsShown, made_by_event, changes_of, shown_by};
ghost use Rattle.erst_commands.specs.Attached.{own_client};
ghost use Rattle.erst_commands.specs.Equivalence.{EquivalentMachines, FailedNothing, BootsFrom};
ghost use Rattle.erst_bridge.specs.BridgedRuns.{EachLossShows};
ghost use Rattle.erst_bridge.specs.{MachinesInStep.KeepOrder, Shown.IsStoredAs};
ghost use Rattle.apei_script.specs.Players.{PlayerState, own_player};
ghost use Rattle.apei_script.specs.Plays.{Plays, HasHappened};
ghost use Rattle.script_laws.specs.History.{Played, Follows, EndInOrder, ShowsLines, ShowsEachLine, AreMapped, NoneSaysHardware, AllGoThrough, AlwaysUsesEither};
ghost use Rattle.script_laws.specs.PlayedLines.{PlayedLines, UseOwnTables};
ghost use Rattle.script_laws.specs.Spares.{SpareLines, KeepsAll, KeepsInAny};
ghost use Rattle.script_laws.specs.Orders.{IsInStep, AlwaysInStep, AllGiveStoredBack};
ghost use Rattle.script_laws.specs.KeptCauses.{AllHaveCauses};
ghost use Rattle.script_laws.specs.Equivalence.{EquivalentPlayers, PlayedAlike};

use erst_bridge::equivalent_machines_make_turns_alike;
use erst_commands::own_programs_run_through;
use flash_model::Flash;

/// Whatever the lines of a script do to the machine is one list of accesses, restarts, calls of the handover and fatal blocks, in their
/// order, with the flash changes that the definitions give them where no fault was counted. So power lost at any flash step shows the
/// records after those that had ended by then, or as the next one leaves them: for every script, whatever its tables and actions.
pub fn lines_are_one_list<F: Flash>()
    ensures happened { (lines : PlayedLines F.tells) → HasHappened F.tells lines.first.machine lines.last.machine }
    ensures shown { F.tells → (lines : PlayedLines F.tells) → (trail : List (Move Event MachineState))
        × Trail (Happens F.tells) lines.first.machine trail lines.last.machine
        × IsShown made_by_event lines.first.machine trail lines.last.machine }
{}

/// Lines lead from a machine's state to a machine's state, and keep how the flash is divided, the first client and the steps of a line.
pub fn lines_keep_a_machine<F: Flash>()
    ensures machine { (lines : PlayedLines F.tells) → IsMachine lines.first.machine → IsMachine lines.last.machine }
    ensures layout { (lines : PlayedLines F.tells)
        → lines.last.machine.device.store.layout ≡ lines.first.machine.device.store.layout }
    ensures own { (lines : PlayedLines F.tells) → lines.last.own ≡ lines.first.own }
    ensures steps { (lines : PlayedLines F.tells) → lines.last.steps ≡ lines.first.steps }
{}

/// Lines end one after another. At the step at which each one ended the flash's image showed the records that it leaves, and past images
/// stay. In a script of the clients of the machine's two tables, power lost at any flash step shows the records after the lines that had ended by then, or
/// as the next one leaves them where nothing fails.
pub fn lines_are_shown<F: Flash>()
    ensures ends { F.tells → (lines : PlayedLines F.tells) → ShowsEachLine lines.last lines.first lines.played
        × IsLater (told_of lines.first.machine) (told_of lines.last.machine) }
    ensures in_order { F.tells → (lines : PlayedLines F.tells)
        → EndInOrder (changes_of lines.first.machine) lines.played (changes_of lines.last.machine) }
    ensures crash { F.tells → (lines : PlayedLines F.tells) → UseOwnTables F.tells lines
        → EachLossShows lines.first.machine lines.last.machine (λ s shown. ShowsLines s lines.first lines.played shown) }
{}

/// A record that is stored is shown by power lost at any step from then on until a line begins that writes or clears its identifier, or has
/// a turn of the bridge that writes it; so is the record of each block that the bridge stored, from the end of the turn that stored it on.
pub fn stored_blocks_stay<F: Flash>()
    ensures records { F.tells → (lines : PlayedLines F.tells) → IsMachine lines.first.machine
        → UseOwnTables F.tells lines → (s id : ℕ) (bytes : List ℕ) → SpareLines s id lines.first lines.played
        → IsStoredAs id bytes (records_of lines.first.machine) → (shown : Stored)
        → ShowsLines s lines.first lines.played shown → IsStoredAs id bytes shown }
    ensures stored { F.tells → (lines : PlayedLines F.tells) → IsMachine lines.first.machine
        → UseOwnTables F.tells lines → (s : ℕ) (shown : Stored)
        → (changes_of lines.first.machine ≤ s → ShowsLines s lines.first lines.played shown)
        → KeepsAll s lines.first lines.played shown }
    // In any script, a block's record stays from its turn on until a line begins that does that, runs an action, gives a table, or
    // asks the client of a given one.
    ensures in_any { F.tells → (lines : PlayedLines F.tells) → IsMachine lines.first.machine
        → lines.first.own ≡ own_client lines.first.machine → (s : ℕ) (image : List ℕ)
        → CrashImage (told_of lines.last.machine) s image
        → KeepsInAny s lines.first lines.played (shown_by lines.first.machine image) }
{
    own_programs_run_through::<F>();
}

/// A bridge that is on stays in step with the handover, whatever the tables and actions of the lines; and in each line of turns the reader
/// gives a block back behind the storing of its record: the block that it clears or acknowledges is the one that was stored last.
pub fn lines_keep_in_step<F: Flash>()
    ensures line { (counts : List ℕ) (old : PlayerState) (played : Played) → IsMachine old.machine
        → Plays F.tells counts old played → IsInStep old → KeepOrder old.bridge played.steps × IsInStep played.left }
    ensures lines { (lines : PlayedLines F.tells) → IsMachine lines.first.machine → IsInStep lines.first
        → AlwaysInStep lines.first lines.played }
    ensures given_back { (lines : PlayedLines F.tells) → IsMachine lines.first.machine → lines.first.bridge ≡ Off
        → AllGiveStoredBack None lines.first lines.played }
{}

/// A turn of the bridge keeps a block for a failure of the flash only where the flash's count of faults rose in that very turn, and where
/// its steps are enough, never for want of steps or of time.
pub fn kept_blocks_have_causes<F: Flash>()
    ensures { (lines : PlayedLines F.tells) → IsMachine lines.first.machine
        → lines.first.own ≡ own_client lines.first.machine → AllHaveCauses lines.first lines.played }
{
    own_programs_run_through::<F>();
}

/// Each line that asks the client of one of the machine's two tables for a command on records is the record map's; where no fault was counted
/// none says that the flash failed; where its steps are enough none is stopped or late; and a script that neither runs an action nor gives a
/// table of its own never leaves these two clients.
pub fn each_line_is_the_maps<F: Flash>()
    ensures mapped { F.tells → (lines : PlayedLines F.tells) → AreMapped lines.first lines.played }
    ensures no_fault { (lines : PlayedLines F.tells) → FailedNothing lines.first.machine lines.last.machine
        → NoneSaysHardware lines.first lines.played }
    ensures enough { (lines : PlayedLines F.tells) → AllGoThrough lines.first lines.played }
    ensures either { (lines : PlayedLines F.tells) → UseOwnTables F.tells lines
        → AlwaysUsesEither lines.first lines.played }
{}

/// Players of the machines' own clients are equivalent where the machines are.
pub fn equivalent_machines_make_equivalent_players()
    ensures { (one also : MachineState) (steps : Option ℕ) → EquivalentMachines one also
        → EquivalentPlayers (own_player one steps) (own_player also steps) }
{}

/// The same lines of two players that are equivalent, over flashes that fail nothing: the replies are the same, at the same flash steps, and so
/// are the blocks that the operating system takes and the records at the end. Where the records stand plays no part in it.
pub fn scripts_play_alike<F: Flash>()
    ensures { F.tells → (wants wants_too : List (ℕ → Bool)) (counts : List ℕ) (one also : PlayerState)
        (first second : List Played) (one_last also_last : PlayerState)
        → AllZip (λ want wants_too. (severity : ℕ) → want severity ≡ wants_too severity) wants wants_too
        → EquivalentPlayers one also → IsMachine one.machine → map (λ (played : Played). played.line) first ≡ map (λ (played : Played). played.line) second
        → Follows F.tells wants counts one first one_last → FailedNothing one.machine one_last.machine
        → Follows F.tells wants_too counts also second also_last → FailedNothing also.machine also_last.machine
        → PlayedAlike first second one_last also_last }
{
    equivalent_machines_make_turns_alike::<F>();
}

/// So the replies to a script tell of a flash only the records that it holds, with their generations, how many changes it has made, and
/// how many second copies the boot ends: two flashes with the same of these, each with a machine booted over it and a player of its own
/// client, play the same lines alike where nothing fails.
pub fn booted_scripts_play_alike<F: Flash>()
    ensures { F.tells → (geometry : AnyGeometry) (flash flash_too : FlashState) (one also : MachineState)
        → records_in (layout_of geometry) flash.told.image ≡ records_in (layout_of geometry) flash_too.told.image
        → flash.steps ≡ flash_too.steps → second_copies geometry.slot_size geometry.slots flash.told.image
        ≡ second_copies geometry.slot_size geometry.slots flash_too.told.image → BootsFrom geometry flash one
        → BootsFrom geometry flash_too also → (wants : List (ℕ → Bool)) (counts : List ℕ) (steps : Option ℕ)
        (first second : List Played) (one_last also_last : PlayerState)
        → map (λ (played : Played). played.line) first ≡ map (λ (played : Played). played.line) second
        → Follows F.tells wants counts (own_player one steps) first one_last → FailedNothing one one_last.machine
        → Follows F.tells wants counts (own_player also steps) second also_last → FailedNothing also also_last.machine
        → PlayedAlike first second one_last also_last }
{
    equivalent_machines_make_turns_alike::<F>();
}
