// Laws on the records of slots, for the crates above: each function does nothing, and its clauses are the laws.
ghost use Rattle.std.specs.Prelude.{◌≡◌, ℕ, ◌<◌, List, length, slice_index, slice_index_or, Option, Some, None};
ghost use Rattle.std.specs.FinMap.{get};
ghost use Rattle.record_model.specs.Records.{Entry, selected, IsChosen};
ghost use Rattle.record_slots.specs.Listed.{AreListed, IsListed};

use crate::SlotOf;

/// The map has under an identifier the record of the slot that is chosen for it, and nothing where no slot has the
/// identifier.
pub fn chosen_is_stored()
    ensures some { (entry : ℕ → Option Entry) (n k : ℕ) (chosen : Entry) → IsChosen entry n k chosen
        → get (selected entry n) chosen.id ≡ Some (chosen.body, chosen.generation) }
    ensures none { (entry : ℕ → Option Entry) (n id : ℕ)
        → ((k : ℕ) (e : Entry) → k < n → entry k ≡ Some e → e.id ≡ id → ⊥) → get (selected entry n) id ≡ None }
{}

/// The identifiers that are listed are those of the map, and the place of each has the generation and the length of its
/// record.
pub fn listed_is_stored()
    ensures some { (entry : ℕ → Option Entry) (n i : ℕ) (d : SlotOf) (ids : List ℕ) (places : List SlotOf)
        → AreListed entry n ids places → i < length ids
        → (body : List ℕ) × (length body ≡ (slice_index_or places i d).len)
        × (get (selected entry n) (slice_index ids i) ≡ Some (body, (slice_index_or places i d).generation)) }
    ensures none { (entry : ℕ → Option Entry) (n id : ℕ) (ids : List ℕ) (places : List SlotOf)
        → AreListed entry n ids places → (IsListed ids id → ⊥) → get (selected entry n) id ≡ None }
{}
