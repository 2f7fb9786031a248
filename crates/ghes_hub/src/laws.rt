// Laws of a hub: the functions do nothing, and their clauses are the laws.
ghost use Rattle.std.specs.Prelude.{◌≡◌, ◌≤◌, ◌+◌, ◌-◌, ◌^◌, min, ℕ, List, length, take, Some, slice_get};
ghost use Rattle.ghes_ack.specs.Machine.{IsState, started};
ghost use Rattle.ghes_ack.specs.Schedules.{Step, from_start, AreFitting, AreInOrder, submissions};
ghost use Rattle.hest_sources.specs.declared.sources.Ghes.{Ghes as Generic};
ghost use Rattle.hest_sources.specs.declared.sources.HestSource.{HestSource};
ghost use Rattle.ghes_hub.specs.Opens.{IsOpened, opened_source};
ghost use Rattle.ghes_hub.specs.Refusals.{generics};
ghost use Rattle.ghes_hub.specs.Hubs.{HubState, Call, DoAll, OpenedSource, Serves};
ghost use Rattle.apei_notify.specs.Telling.{Told, wanted};
ghost use Rattle.std.specs.List.{AllZip};
ghost use Rattle.ghes_hub.specs.Kinds.{Kind};
ghost use Rattle.ghes_hub.specs.SourcesState.{StandsAt, layouts_in};
ghost use Rattle.ghes_hub.specs.Runs.{run_by, told_by};

use apei_notify::Listener;

/// Whatever is submitted to a source, and whoever takes the turns: what the reader copied out of the window are the first blocks
/// of those submitted, as many as were taken, whole, each once, in order, and of these the listeners are told.
pub fn every_source_in_order()
    ensures state { (kind : Kind) (window : List ℕ) (steps : List Step) → 20 ≤ length window
        → AreFitting (length window) steps → IsState (length window) (run_by kind (from_start window) steps).machine }
    ensures submitted { (kind : Kind) (window : List ℕ) (steps : List Step) →
        (run_by kind (from_start window) steps).machine.blocks ≡ submissions steps }
    ensures taken { (kind : Kind) (window : List ℕ) (steps : List Step) → 20 ≤ length window
        → AreFitting (length window) steps → (run_by kind (from_start window) steps).taken
        ≡ take (run_by kind (from_start window) steps).machine.taken (submissions steps) }
    ensures told { (kind : Kind) (window : List ℕ) (steps : List Step) → 20 ≤ length window
        → AreFitting (length window) steps → told_by kind (from_start window) steps
        ≡ take (run_by kind (from_start window) steps).machine.taken (submissions steps) }
    ensures order { (kind : Kind) (window : List ℕ) (steps : List Step) → 20 ≤ length window
        → AreFitting (length window) steps → AreInOrder (run_by kind (from_start window) steps).machine }
{}

/// What the calls of a hub say, put together: for every list of calls and each source, whatever stands between, the source is served as
/// its own submissions, turns and removals alone say.
pub fn every_list_of_calls<L: Listener>()
    ensures serves { (source : OpenedSource L) (calls : List Call) (first last : HubState L)
        → StandsAt source.kind first.sources source.number (started source.window)
        → slice_get first.chains source.number ≡ Some source.listeners → DoAll L.hearing calls first last
        → Serves L.hearing source calls last }
    ensures layouts { (calls : List Call) (first last : HubState L) → DoAll L.hearing calls first last
        → layouts_in last.sources ≡ layouts_in first.sources }
{}

/// From the opening of a hub on: each generic source of its table is served, over a window of zeros, with the listeners that were dealt
/// to it.
pub fn a_hub_from_its_opening<L: Listener>()
    ensures { (table : List HestSource) (listeners : List L) (i : ℕ) (source : Generic) (calls : List Call)
        (first last : HubState L) → IsOpened table listeners first → slice_get (generics table) i ≡ Some source
        → DoAll L.hearing calls first last → Serves L.hearing (opened_source listeners first i source) calls last }
{}

/// A listener that was told of some blocks has heard of exactly those that it wants, each once.
pub fn each_has_heard<L: Listener>()
    ensures { (blocks : List (List ℕ)) (old new : List L) → Told L.hearing blocks old new
        → AllZip (λ before after. (L.hearing before).count ≤ 2 ^ 64 - 1
        → (L.hearing after).count ≡ min ((L.hearing before).count + wanted (L.hearing before).wants blocks)
        (2 ^ 64 - 1)) old new }
{}
