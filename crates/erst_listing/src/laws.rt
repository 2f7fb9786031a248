// The laws: the functions do nothing, and their clauses are the laws.
ghost use Rattle.std.specs.Prelude.{◌≡◌, ℕ, ◌+◌, ◌*◌, ◌<◌, ◌≤◌, Bool, true, List, length, take, Contains, Option, Some, Result, Ok, Err};
ghost use Rattle.apei_space.specs.declared.faults.SpaceFault.{SpaceFault};
ghost use Rattle.erst_entries.specs.declared.entries.Entry.{Entry};
ghost use Rattle.erst_interp.specs.declared.demands.Demand.{Demand};
ghost use Rattle.erst_listing.specs.declared.errors.ListError.{ListError};
ghost use Rattle.erst_listing.specs.declared.errors.ListError.TheVariants.{Full};
ghost use Rattle.erst_listing.specs.declared.listing.Listing.{Listing};
ghost use Rattle.erst_listing.specs.Gathering.{Lists};
ghost use Rattle.erst_listing.specs.Listing.{listing_first, listing_demanded, listing_answered, listing_result, listed_by, listing_bound, questions, ListingMoves, ListingStands, ListingMade};
ghost use Rattle.erst_listing.specs.Devices.{Told, IsInOrder, Tells, AreAll, AreDistinct, IsAnAnswer};

use apei_space::Space;
use erst_client::{a_told_request_ends, a_told_request_is_made};

/// Whatever space answers the accesses as it may: the listing is its questions, one after another.
pub fn a_told_listing_lists<S: Space>()
    ensures begins { (entries : List Entry) (steps : ℕ) (held : List ℕ) (first : S.State)
        → ListingStands S.allows entries steps (length held) first (listing_first entries steps) held first }
    ensures moves { (entries : List Entry) (steps room : ℕ) (first : S.State) (old at : Listing) (before after : List ℕ)
        (now : S.State) → ListingMoves entries steps old before at after
        → ListingStands S.allows entries steps room first old before now
        → ListingStands S.allows entries steps room first at after now }
    ensures answered { (entries : List Entry) (steps room : ℕ) (first : S.State) (at : Listing) (held : List ℕ)
        (now : S.State) (answer : Result ℕ SpaceFault) (last : S.State)
        → ListingStands S.allows entries steps room first at held now → ListingMade S.allows at now answer last
        → ListingStands S.allows entries steps room first (listing_answered at answer) held last }
    ensures ends { (entries : List Entry) (steps room : ℕ) (first : S.State) (at : Listing) (held : List ℕ)
        (now : S.State) (result : Result (Unit {0}) ListError) → listing_result at ≡ Some result
        → ListingStands S.allows entries steps room first at held now
        → Lists (questions S.allows entries steps) room first result (take (listed_by at) held) now }
{
    a_told_request_is_made::<S>();
}

/// Whatever is answered: what is listed was answered, and each identifier is listed once.
pub fn a_listing_has_each_once<S: Space>()
    ensures fits { (entries : List Entry) (steps room : ℕ) (first : S.State) (result : Result (Unit {0}) ListError)
        (ids : List ℕ) (last : S.State) → Lists (questions S.allows entries steps) room first result ids last
        → length ids ≤ room }
    ensures distinct { (entries : List Entry) (steps room : ℕ) (first : S.State)
        (result : Result (Unit {0}) ListError) (ids : List ℕ) (last : S.State)
        → Lists (questions S.allows entries steps) room first result ids last → AreDistinct ids }
    ensures answered { (entries : List Entry) (steps room : ℕ) (first : S.State)
        (result : Result (Unit {0}) ListError) (ids : List ℕ) (last : S.State)
        → Lists (questions S.allows entries steps) room first result ids last → (id : ℕ) → Contains ids id
        → IsAnAnswer (questions S.allows entries steps) id }
{}

/// Over a device of some identifiers, wherever it stands, and whatever it does after its last one: a listing that goes through has all
/// of them, and one that has no room leaves one out.
pub fn a_listing_has_all()
    ensures all { (told : Told) → IsInOrder told → (room at : ℕ) (ids : List ℕ) (last : ℕ)
        → Lists (Tells told) room at (Ok tt) ids last → AreAll told ids }
    ensures distinct { (told : Told) (room at : ℕ) (result : Result (Unit {0}) ListError) (ids : List ℕ) (last : ℕ)
        → Lists (Tells told) room at result ids last → AreDistinct ids }
    ensures full { (told : Told) (room at : ℕ) (ids : List ℕ) (last : ℕ)
        → Lists (Tells told) room at (Err Full) ids last → (length ids ≡ room) × (id : ℕ)
        × (told.has id ≡ true) × (Contains ids id → ⊥) }
{}

/// It ends whatever it is answered, after at most two questions more than the buffer has room for: a question tells at most 4 accesses
/// for each of its steps.
pub fn a_listing_ends()
    ensures begins { (entries : List Entry) (steps room : ℕ)
        → listing_bound steps room (listing_first entries steps) ≤ (room + 2) * (4 * steps) }
    ensures moves { (entries : List Entry) (steps : ℕ) (old at : Listing) (before after : List ℕ)
        → listed_by old ≤ length before → ListingMoves entries steps old before at after
        → listing_bound steps (length before) at ≤ listing_bound steps (length before) old }
    ensures answered { (steps room : ℕ) (at : Listing) (answer : Result ℕ SpaceFault) (demand : Demand)
        → listing_demanded at ≡ Some demand
        → listing_bound steps room (listing_answered at answer) < listing_bound steps room at }
{
    a_told_request_ends();
}
