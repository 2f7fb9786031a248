// Laws on whatever happens to a machine: the functions do nothing, and their clauses are the laws.
ghost use Rattle.std.specs.Prelude.{◌≡◌, ℕ, ◌+◌, ◌<◌, ◌≤◌, List, [], ◌∷◌, ◌++◌};
ghost use Rattle.apei_tables.specs.declared.registers.Place.{Place as AnyPlace};
ghost use Rattle.apei_space.specs.Mapped.{FindsBytes, further};
ghost use Rattle.erst_machine.specs.declared.areas.Area.{Area as AnyArea};
ghost use Rattle.erst_machine.specs.declared.areas.Location.TheVariants.{Inside};
ghost use Rattle.erst_machine.specs.Areas.{size_of, place_of, place_location, all_windows, finds};
ghost use Rattle.apei_space.specs.Calls.{Call};
ghost use Rattle.apei_space.specs.Accesses.{Reaches, Move, Trail};
ghost use Rattle.erst_machine.specs.MachineState.{MachineState, IsMachine};
ghost use Rattle.erst_machine.specs.Allowed.{Allows};
ghost use Rattle.erst_machine.specs.Events.{Event, Happens, Accessed};
ghost use Rattle.erst_machine.specs.Shown.{IsShown, made_by_event};

use flash_model::Flash;

/// An access finds its bytes exactly where the areas of the map hold all of them, and else the address of the first that none holds.
pub fn every_access_finds_its_bytes()
    ensures { (reach : ℕ) (at : AnyPlace) (n : ℕ) → reach ≤ 65536 → 0 < n
        → FindsBytes (all_windows reach) at n (finds (place_location reach at n)) }
{}

/// An access within an area is found in that area, at its index.
pub fn an_area_has_its_bytes()
    ensures { (reach : ℕ) (area : AnyArea) (k n : ℕ) → reach ≤ 65536 → 0 < n → k + n ≤ size_of reach area
        → place_location reach (further (place_of area) k) n ≡ Inside area k }
{}

/// Whatever accesses a program, or several, make, in any order: power lost at any flash step shows the records after those
/// that had ended by then, or as the next one leaves them. Each makes at most one change of the flash.
pub fn any_accesses_are_shown<F: Flash>()
    ensures trail { F.tells → (first last : MachineState) (trail : List (Move Call MachineState))
        → Trail (Allows F.tells) first trail last → IsShown (λ state call. made_by_event state (Accessed call)) first trail last }
    ensures reached { F.tells → (first last : MachineState) → Reaches (Allows F.tells) first last
        → (trail : List (Move Call MachineState)) × Trail (Allows F.tells) first trail last
        × IsShown (λ state call. made_by_event state (Accessed call)) first trail last }
{}

/// The same of accesses, restarts, calls of the handover and fatal blocks, in any order.
pub fn any_events_are_shown<F: Flash>()
    ensures { F.tells → (first last : MachineState) (trail : List (Move Event MachineState))
        → Trail (Happens F.tells) first trail last → IsShown made_by_event first trail last }
{}

/// Accesses are among what happens, and what happens and then what happens is what happens: so whatever a program, a client or a
/// script does to a machine is one list.
pub fn whatever_happens_is_one_list<F: Flash>()
    ensures accesses { (first last : MachineState) → Reaches (Allows F.tells) first last
        → (trail : List (Move Event MachineState)) × Trail (Happens F.tells) first trail last }
    ensures one { (first last : MachineState) (event : Event) → Happens F.tells first event last
        → Trail (Happens F.tells) first ((record { event = event; left = last }) ∷ []) last }
    ensures more { (first mid last : MachineState) (one two : List (Move Event MachineState))
        → Trail (Happens F.tells) first one mid → Trail (Happens F.tells) mid two last
        → Trail (Happens F.tells) first (one ++ two) last }
{}

/// Accesses lead from a machine's state to a machine's state.
pub fn accesses_keep_a_machine<F: Flash>()
    ensures { (first last : MachineState) → Reaches (Allows F.tells) first last → IsMachine first → IsMachine last }
{}

/// And so does whatever happens.
pub fn events_keep_a_machine<F: Flash>()
    ensures { (first last : MachineState) (trail : List (Move Event MachineState))
        → Trail (Happens F.tells) first trail last → IsMachine first → IsMachine last }
{}

/// Accesses never lower the flash's count of faults, whether it tells its content or not.
pub fn accesses_never_lower_the_faults<F: Flash>()
    ensures { (first last : MachineState) → Reaches (Allows F.tells) first last
        → first.device.store.flash.faults ≤ last.device.store.flash.faults }
{}
