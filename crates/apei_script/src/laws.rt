// Laws on one line of a script and on words of replies: the functions do nothing, and their clauses are the laws.
ghost use Rattle.std.specs.Prelude.{◌≡◌, ℕ, ◌+◌, ◌≤◌, List, ◌++◌, codes, decimal};
ghost use Rattle.base_model.specs.Faults.{Rose};
ghost use Rattle.apei_space.specs.Accesses.{Move, Trail};
ghost use Rattle.erst_interp.specs.declared.stops.RunStop.{RunStop as AnyStop};
ghost use Rattle.erst_client.specs.declared.errors.ClientError.{ClientError as AnyError};
ghost use Rattle.erst_client.specs.declared.errors.ClientError.TheVariants.{Hardware, Stopped, Late};
ghost use Rattle.erst_machine.specs.MachineState.{MachineState, IsMachine};
ghost use Rattle.erst_machine.specs.Events.{Event, Happens};
ghost use Rattle.script_text.specs.ScriptGrammar.{Line, IsValid};
ghost use Rattle.apei_script.specs.ClientWords.{words_of_client};
ghost use Rattle.apei_script.specs.RunWords.{words_of_stop};
ghost use Rattle.apei_script.specs.Players.{PlayerState};
ghost use Rattle.apei_script.specs.Changes.{changes_along};
ghost use Rattle.apei_script.specs.Plays.{Played, Plays, FailsRestart, HasHappened, LinePlayed};

use erst_commands::own_programs_run_through;
use flash_model::Flash;

/// Where no fault was counted, whatever happened to a machine took exactly the flash changes that the definitions give it, one after
/// another; and the count of faults never falls.
pub fn events_take_their_changes<F: Flash>()
    ensures never_falls { (first last : MachineState) (trail : List (Move Event MachineState))
        → Trail (Happens F.tells) first trail last
        → first.device.store.flash.faults ≤ last.device.store.flash.faults }
    ensures exact { F.tells → (first last : MachineState) (trail : List (Move Event MachineState))
        → Trail (Happens F.tells) first trail last
        → (Rose first.device.store.flash.faults last.device.store.flash.faults → ⊥)
        → last.device.store.flash.steps ≡ first.device.store.flash.steps + changes_along first trail }
{}

/// Whatever was played of a line is all that `LinePlayed` says of it.
pub fn a_line_is_the_maps<F: Flash>()
    ensures { (counts : List ℕ) (old : PlayerState) (played : Played) → IsMachine old.machine → IsValid played.line
        → Plays F.tells counts old played → LinePlayed F.tells counts old played }
{
    own_programs_run_through::<F>();
}

/// A restart that the flash failed is among what happens too, and the flash counted a fault in it.
pub fn a_failed_restart_has_happened<F: Flash>()
    ensures { (old : MachineState) (line : Line) (new : MachineState) → FailsRestart F.tells old line new
        → HasHappened F.tells old new × Rose old.device.store.flash.faults new.device.store.flash.faults }
{}

/// A line leads from a machine's state to a machine's state, and keeps how the flash is divided, the first client and the steps of lines.
pub fn a_line_keeps_a_machine<F: Flash>()
    ensures machine { (counts : List ℕ) (old : PlayerState) (played : Played) → IsMachine old.machine
        → Plays F.tells counts old played → IsMachine played.left.machine }
    ensures layout { (counts : List ℕ) (old : PlayerState) (played : Played) → Plays F.tells counts old played
        → played.left.machine.device.store.layout ≡ old.machine.device.store.layout }
    ensures own { (counts : List ℕ) (old : PlayerState) (played : Played) → Plays F.tells counts old played
        → played.left.own ≡ old.own }
    ensures steps { (counts : List ℕ) (old : PlayerState) (played : Played) → Plays F.tells counts old played
        → played.left.steps ≡ old.steps }
{}

/// The words of a client's refusal tell it: that the flash failed, that a program was stopped, or that the device was busy for too long.
pub fn words_tell_the_refusal()
    ensures hardware { (error : AnyError) → words_of_client error ≡ codes "hardware" → error ≡ Hardware }
    ensures stopped { (stop : AnyStop) (error : AnyError)
        → words_of_client error ≡ codes "stopped " ++ words_of_stop stop → (why : AnyStop) × (error ≡ Stopped why) }
    ensures late { (time : ℕ) (error : AnyError) → words_of_client error ≡ codes "late " ++ decimal time
        → (waited : ℕ) × (error ≡ Late waited) }
{}
