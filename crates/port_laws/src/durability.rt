// The laws: the functions do nothing, and their clauses are the laws.
ghost use Rattle.std.specs.Prelude.{◌≡◌, ℕ, ◌≤◌, List, length, drop};
ghost use Rattle.base_model.specs.Flash.{CrashImage};
ghost use Rattle.flash_model.specs.declared.geometry.Geometry.{Geometry};
ghost use Rattle.flash_model.specs.Layouts.{layout_of};
ghost use Rattle.record_store.specs.Store.{records_of as records_in};
ghost use Rattle.apei_space.specs.Accesses.{Trail};
ghost use Rattle.image_survey.specs.Headers.{IsMedium};
ghost use Rattle.erst_port.specs.declared.windows.Addresses.{Addresses};
ghost use Rattle.erst_port.specs.Openings.{OpenedAs};
ghost use Rattle.erst_port.specs.PortState.{flash_of, IsMade};
ghost use Rattle.port_laws.specs.Beginnings.{Begins};
ghost use Rattle.port_laws.specs.Calls.{Embedded, Happens, IsInStep, IsCounted};
ghost use Rattle.port_laws.specs.Commands.{records_of};
ghost use Rattle.port_laws.specs.Losses.{IsLeft, SameFront};
ghost use Rattle.port_laws.specs.Prefixes.{Calls, PortRun, IsHistory, ShowsPrefix, CountsNoFault, ShowsFirst};

/// A port that was opened over the bytes behind the first ones of a medium begins there, also where its opening made changes of its own.
pub fn an_opening_begins()
    ensures { (origin : ℕ) (geometry : Geometry) (addresses : Addresses) (first : Embedded)
        → origin ≤ length first.medium → OpenedAs origin geometry (drop origin first.medium) addresses first.port
        → Begins origin geometry first }
{}

/// Whatever calls are made, the medium holds behind its first bytes what the port's flash held after as many changes as the medium made, with the
/// bytes of the next one that it made: once it made all, what the flash holds. Its first bytes stay.
pub fn a_medium_keeps_step()
    ensures step { (origin : ℕ) (geometry : Geometry) (run : PortRun origin geometry) → IsInStep run.last }
    ensures all { (origin : ℕ) (geometry : Geometry) (run : PortRun origin geometry) → IsCounted run.last.port
        → IsMade run.last.port → drop origin run.last.medium ≡ (flash_of run.last.port).told.image }
    ensures front { (origin : ℕ) (geometry : Geometry) (run : PortRun origin geometry)
        → SameFront origin run.first.medium run.last.medium }
{}

/// Whatever calls were made, and whatever power lost in the part of a change that is due leaves in its range, the medium holds a crash image of the
/// port's flash, at the step of that change. Its first bytes stay, so that it is a medium of the same geometry.
pub fn lost_power_leaves_a_crash_image()
    ensures crash { (origin : ℕ) (geometry : Geometry) (run : PortRun origin geometry) (left : List ℕ)
        → IsLeft run.last left
        → CrashImage (flash_of run.last.port).told run.last.port.made.changes (drop origin left) }
    ensures front { (origin : ℕ) (geometry : Geometry) (run : PortRun origin geometry) (left : List ℕ)
        → IsLeft run.last left → SameFront origin run.first.medium left }
    ensures medium { (geometry : Geometry) (run : PortRun geometry.sector geometry) (left : List ℕ)
        → IsMedium geometry run.first.medium → IsLeft run.last left → IsMedium geometry left }
{}

/// The records change by the writes and clears that calls complete, and by nothing else: each call completes one or none.
pub fn records_change_by_commands()
    ensures { (first : Embedded) (calls : Calls) (last : Embedded) → Trail Happens first calls last
        → IsHistory first calls }
{}

/// What power lost leaves shows the records after a first part of the calls, or with the write or clear that the call behind it completes. Each
/// call is in that part that stands before one for which ACTION took a code, and so each write or clear whose status was told. An opening over
/// it finds these records.
pub fn a_lost_medium_shows_a_prefix()
    ensures shown { (origin : ℕ) (geometry : Geometry) (run : PortRun origin geometry) (left : List ℕ)
        → IsLeft run.last left → ShowsPrefix run.first run.calls (records_in (layout_of geometry) (drop origin left)) }
    ensures found { (origin : ℕ) (geometry : Geometry) (run : PortRun origin geometry) (next : Embedded)
        → IsLeft run.last next.medium → Begins origin geometry next
        → ShowsPrefix run.first run.calls (records_of next.port) }
    // Where the flash counted no fault, they are what the first of the writes and clears leave.
    ensures commands { (origin : ℕ) (geometry : Geometry) (run : PortRun origin geometry) (next : Embedded)
        → CountsNoFault run.first run.calls → IsLeft run.last next.medium → Begins origin geometry next
        → ShowsFirst run.first run.calls (records_of next.port) }
{}
