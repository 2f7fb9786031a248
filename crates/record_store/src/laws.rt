// Laws on the commands of a store, for the crates above: a function does nothing, and its clauses are the laws.
ghost use Rattle.std.specs.Prelude.{◌<◌, ℕ, List, Contains};
ghost use Rattle.std.specs.List.Sorted.{IsStrictlyIncreasing};
ghost use Rattle.base_model.specs.Layout.{Layout};
ghost use Rattle.record_model.specs.Records.{Stored};
ghost use Rattle.record_model.specs.History.{Played, AreAnswered};
ghost use Rattle.record_store.specs.Walk.{IsWalk, StaysStored, found_by};

/// From the start to the end a walk finds identifiers in rising order, each at most once, whatever is written and cleared
/// on the way, and finds each that stays stored.
pub fn a_walk_finds_each_identifier()
    ensures rising { (layout : Layout) (stored : Stored) (commands : List Played)
        → AreAnswered layout 0 commands stored → IsWalk commands → IsStrictlyIncreasing (found_by commands) }
    ensures all { (layout : Layout) (id : ℕ) (stored : Stored) (commands : List Played)
        → AreAnswered layout 0 commands stored → IsWalk commands → 0 < id → StaysStored layout id commands stored
        → Contains (found_by commands) id }
{}
