// The laws on all that happens to a medium: the functions do nothing, and their clauses are the laws.
ghost use Rattle.std.specs.Prelude.{◌≡◌, ℕ, ◌-◌, ◌<◌, ◌≤◌, ◌^◌, List, length, drop, Ok, Result};
ghost use Rattle.flash_model.specs.declared.geometry.Geometry.{Geometry};
ghost use Rattle.flash_model.specs.Layouts.{layout_of};
ghost use Rattle.record_model.specs.RecordMap.{Command};
ghost use Rattle.record_store.specs.Store.{records_of as records_in};
ghost use Rattle.apei_space.specs.Accesses.{Trail};
ghost use Rattle.image_survey.specs.Headers.{IsMedium};
ghost use Rattle.erst_port.specs.declared.windows.Addresses.{Addresses};
ghost use Rattle.erst_port.specs.Failures.{Fails};
ghost use Rattle.erst_port.specs.LastCount.{FailsLast};
ghost use Rattle.erst_port.specs.Loaded.{LoadedBy};
ghost use Rattle.erst_port.specs.Openings.{OpenedAs, OpenedOn};
ghost use Rattle.erst_port.specs.PortState.{PortState, flash_of};
ghost use Rattle.port_laws.specs.Beginnings.{Begins};
ghost use Rattle.port_laws.specs.Calls.{Embedded, Happens};
ghost use Rattle.port_laws.specs.Commands.{records_of};
ghost use Rattle.port_laws.specs.Lives.{Run, Starts, IsLife, AreKept};
ghost use Rattle.port_laws.specs.Prefixes.{Calls, CountsNoFault, played};

/// A port that was loaded over the bytes behind the first ones of a medium begins there, as one that was opened does.
pub fn a_loading_begins()
    ensures { (origin : ℕ) (geometry : Geometry) (saved : List ℕ) (first : Embedded) → origin ≤ length first.medium
        → LoadedBy (OpenedAs origin geometry (drop origin first.medium)) saved first.port
        → Begins origin geometry first }
{}

/// A port that `Port::open` opened on a medium starts a run over it, by the medium's own geometry. So does one that `Port::load` loaded, and one
/// that goes on by `Port::failed` after the medium failed a change.
pub fn a_medium_starts_a_run()
    ensures opened { (geometry : Geometry) (addresses : Addresses) (first : Embedded) → IsMedium geometry first.medium
        → OpenedOn first.medium addresses first.port → Starts geometry.sector geometry first }
    ensures loaded { (geometry : Geometry) (saved : List ℕ) (first : Embedded) → IsMedium geometry first.medium
        → LoadedBy (OpenedOn first.medium) saved first.port → Starts geometry.sector geometry first }
    ensures failed { (geometry : Geometry) (old : PortState) (first : Embedded) → IsMedium geometry first.medium
        → old.origin ≡ geometry.sector → Fails first.medium old (Ok tt) first.port
        → Starts geometry.sector geometry first }
{}

/// As long as one more change can be counted, no call counted a fault.
pub fn no_fault_before_the_last_count()
    ensures { (first : Embedded) (calls : Calls) (last : Embedded) → Trail Happens first calls last
        → FailsLast (flash_of last.port) → (flash_of last.port).steps < 2 ^ 64 - 1 → CountsNoFault first calls }
{}

/// Over all runs of a medium's life, each begun by an opening or a load, or by a change that the medium failed, and each ended by power that is
/// lost wherever: the medium holds the records that the writes and clears leave which stay. Of each run the first ones stay that its calls carried
/// out, with each whose status was told.
pub fn a_life_keeps_what_was_told()
    ensures records { (origin : ℕ) (geometry : Geometry) (medium left : List ℕ) (runs : List Run)
        → origin ≤ length medium → IsLife origin geometry medium runs left
        → (kept : List Command) × AreKept runs kept × (records_in (layout_of geometry) (drop origin left)
        ≡ played kept (records_in (layout_of geometry) (drop origin medium))) }
    ensures found { (origin : ℕ) (geometry : Geometry) (next : Embedded) → origin ≤ length next.medium
        → Starts origin geometry next
        → records_of next.port ≡ records_in (layout_of geometry) (drop origin next.medium) }
    ensures medium { (geometry : Geometry) (medium left : List ℕ) (runs : List Run) → IsMedium geometry medium
        → IsLife geometry.sector geometry medium runs left → IsMedium geometry left }
{}
