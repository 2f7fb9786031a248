// The laws: the functions do nothing, and their clauses are the laws.
ghost use Rattle.std.specs.Prelude.{◌≡◌, ◌≢◌, ℕ, List, [], Some, None, All, false, slice_get, map, drop};
ghost use Rattle.ghes_port.specs.declared.setups.Setup.{Setup as AnySetup};
ghost use Rattle.ghes_port.specs.declared.stages.Stage.TheVariants.{Fill};
ghost use Rattle.ghes_port.specs.declared.stages.Unacknowledged.{Unacknowledged};
ghost use Rattle.ghes_port.specs.Machine.{SourceState, told, after};
ghost use Rattle.ghes_port.specs.Sound.{IsSource};
ghost use Rattle.ghes_port.specs.Setups.{begun, setups_fault, maps_meet};
ghost use Rattle.ghes_port.specs.Moves.{IsMoved};
ghost use Rattle.ghes_port.specs.Memories.{bytes_from};
ghost use Rattle.ghes_port.specs.Readers.{World, IsFirst, Leads, IsPrefix, IsNotified, IsBusy, HasAnswered, IsRead, IsApart, restarted, SameParts, IsOffParts, memory_after};
ghost use Rattle.ghes_block.specs.Region.{IsListOf};
ghost use Rattle.ghes_port.specs.Boot.{BootWorld, BootLeads, IsBootFirst, IsCleared, MayBeLeft};
ghost use Rattle.ghes_port.specs.Shared.{Shared, Side, Passes, AreFirst, IsAlone};

/// Whatever happens, the guest took the first of the submitted blocks, whole, each once and in order.
pub fn a_guest_takes_a_prefix()
    ensures { (first last : World) → IsFirst first → Leads first last → IsPrefix last }
{}

/// While the guest copies a block or has still to acknowledge one, the next access writes nothing.
pub fn nothing_is_overwritten()
    ensures { (first last : World) → IsFirst first → Leads first last → IsBusy last.reader
        → memory_after (told last.source) last.memory ≡ last.memory }
{}

/// Each block is notified once: after it is shown, and before the first look for its acknowledgement.
pub fn each_block_is_notified_once()
    ensures { (first last : World) → IsFirst first → Leads first last → IsNotified last }
{}

/// A guest that took the block which is waited for, and acknowledged it, is seen at the next look, whatever happened since.
pub fn an_acknowledgement_is_seen()
    ensures { (first last : World) (value : ℕ) → IsFirst first → Leads first last → HasAnswered last
        → IsRead (told last.source) last.memory value
        → after last.source value ≡ record last.source { stage = Fill 0; queue = drop 1 last.source.queue } }
{}

/// Whatever a guest did and whatever its memory holds: when it starts again the source is as at first, so the guest then takes the first of the
/// blocks that were kept and of those submitted since.
pub fn a_reset_is_a_beginning()
    ensures { (blocks : Unacknowledged) (source : SourceState) (memory : ℕ → ℕ) → IsSource source → IsApart source.map
        → IsFirst (restarted blocks source memory) }
{}

/// A source that is moved, within a block too, goes on as if it stood where it was: it is begun elsewhere by the same setup, given the blocks that
/// are not acknowledged, and put at its stage. What happens before and after is one run, so all laws hold over it.
pub fn a_moved_source_goes_on()
    ensures { (setup : AnySetup) (first between last : World) (moved : SourceState) → IsMoved setup between.source moved
        → Leads first between → Leads (record between { source = moved }) last → Leads first last }
{}

/// An access writes inside the source's parts alone, whatever its guest did: bytes off them are as before.
pub fn an_access_stays_inside()
    ensures { (source : SourceState) (memory : ℕ → ℕ) (at n : ℕ) → IsSource source → IsOffParts source.map at n
        → bytes_from (memory_after (told source) memory) at n ≡ bytes_from memory at n }
{}

/// What the accesses of another source write is elsewhere for this one, if the two have no byte in common.
pub fn an_access_of_another_is_elsewhere()
    ensures { (one other : SourceState) (memory : ℕ → ℕ) → IsSource other → maps_meet one.map other.map ≡ false
        → SameParts one.map memory (memory_after (told other) memory) }
{}

/// Several sources over one memory, each with its guest, in any order of what happens to them: what happened to each is what may happen to it
/// alone, so all laws on one source hold of each.
pub fn each_source_is_as_if_alone()
    ensures { (first last : Shared) → AreFirst first → Passes first last → (i : ℕ) (side : Side)
        → slice_get last.sides i ≡ Some side → IsAlone first last i side }
{}

/// Sources that are opened are as a first world wants them, and no two of them have a byte in common.
pub fn opened_sources_are_apart()
    ensures each { (setups : List AnySetup) → setups_fault [] 0 setups ≡ None
        → All (λ s. IsSource s × IsApart s.map) (map begun setups) }
    ensures pairs { (setups : List AnySetup) (i j : ℕ) (one other : SourceState) → setups_fault [] 0 setups ≡ None
        → i ≢ j → slice_get (map begun setups) i ≡ Some one → slice_get (map begun setups) j ≡ Some other
        → maps_meet one.map other.map ≡ false }
{}

/// What power lost at any moment leaves of a boot error region that was cleared: the list of the blocks whose block status was written, each
/// whole and in order.
pub fn a_boot_region_keeps_its_blocks()
    ensures { (first last : BootWorld) (memory : ℕ → ℕ) → IsBootFirst first → BootLeads first last
        → IsCleared last.boot.stage → MayBeLeft last memory
        → IsListOf last.laid (bytes_from memory last.boot.at last.boot.len) }
{}
