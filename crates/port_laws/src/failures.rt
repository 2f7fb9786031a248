// Laws on a medium that fails a change: the functions do nothing, and their clauses are the laws.
ghost use Rattle.std.specs.Prelude.{◌≡◌, ℕ, ◌≤◌, List, length, Ok, Result};
ghost use Rattle.flash_model.specs.declared.geometry.Geometry.{Geometry};
ghost use Rattle.flash_model.specs.Layouts.{layout_of};
ghost use Rattle.erst_entries.specs.Actions.{code_of};
ghost use Rattle.erst_entries.specs.declared.actions.Action.TheVariants.{GetCommandStatus};
ghost use Rattle.erst_port.specs.Accesses.{ActsOn};
ghost use Rattle.erst_port.specs.Failures.{Fails, HasFailed};
ghost use Rattle.erst_port.specs.PortState.{PortState};
ghost use Rattle.port_laws.specs.Beginnings.{Begins};
ghost use Rattle.port_laws.specs.Calls.{Embedded, Call, Does};
ghost use Rattle.port_laws.specs.Commands.{records_of};
ghost use Rattle.port_laws.specs.Failures.{Forgets};
ghost use Rattle.port_laws.specs.Losses.{IsLeft};
ghost use Rattle.port_laws.specs.Prefixes.{PortRun, ShowsPrefix, CountsNoFault, ShowsFirst};

/// A port that goes on after its medium failed a change begins a run, as one that is opened does.
pub fn a_failure_begins()
    ensures { (geometry : Geometry) (old : PortState) (next : Embedded) → layout_of geometry ≡ old.device.store.layout
        → old.origin ≤ length next.medium → Fails next.medium old (Ok tt) next.port → Begins old.origin geometry next }
{}

/// To the records, a change that the medium fails is a loss of power in it: the port that goes on has those after a first part of the calls, or with
/// the write or clear that the call behind it completes. Each write or clear whose status was told is among them.
pub fn a_failed_change_is_a_loss()
    ensures begins { (origin : ℕ) (geometry : Geometry) (run : PortRun origin geometry) (next : Embedded)
        → IsLeft run.last next.medium → Fails next.medium run.last.port (Ok tt) next.port → Begins origin geometry next }
    ensures found { (origin : ℕ) (geometry : Geometry) (run : PortRun origin geometry) (next : Embedded)
        → IsLeft run.last next.medium → Fails next.medium run.last.port (Ok tt) next.port
        → ShowsPrefix run.first run.calls (records_of next.port) }
    // Where the flash counted no fault, they are what the first of the writes and clears leave.
    ensures commands { (origin : ℕ) (geometry : Geometry) (run : PortRun origin geometry) (next : Embedded)
        → CountsNoFault run.first run.calls → IsLeft run.last next.medium
        → Fails next.medium run.last.port (Ok tt) next.port → ShowsFirst run.first run.calls (records_of next.port) }
{}

/// After such a change GET_COMMAND_STATUS tells FAILED, 3, until an operation is begun or the device is restarted: whatever was begun is never
/// told as done.
pub fn a_failure_is_told()
    ensures failed { (medium : List ℕ) (old new : PortState) → Fails medium old (Ok tt) new → HasFailed new.device }
    ensures stays { (old : PortState) (call : Call) (new : PortState) → HasFailed old.device → Does old call new
        → (Forgets old call → ⊥) → HasFailed new.device }
    ensures told { (old new : PortState) → HasFailed old.device → ActsOn old (code_of GetCommandStatus) new
        → new.device.value ≡ 3 }
{}
