// Laws on two machines that are equivalent: the functions do nothing, and their clauses are the laws.
ghost use Rattle.std.specs.Prelude.{ℕ, List, Option, Result, map};
ghost use Rattle.flash_model.specs.declared.geometry.Geometry.{Geometry};
ghost use Rattle.apei_space.specs.Accesses.{Trail};
ghost use Rattle.ghes_ack.specs.declared.events.Side.{Side as AnySide};
ghost use Rattle.erst_entries.specs.declared.actions.Action.{Action};
ghost use Rattle.erst_entries.specs.declared.entries.Entry.{Entry};
ghost use Rattle.erst_entries.specs.Layout.{Erst};
ghost use Rattle.erst_entries.specs.Programs.{Listed};
ghost use Rattle.erst_interp.specs.declared.stops.RunStop.{RunStop};
ghost use Rattle.erst_interp.specs.Runs.{Run};
ghost use Rattle.erst_client.specs.declared.errors.AttachError.{AttachError};
ghost use Rattle.erst_client.specs.declared.errors.ClientError.{ClientError};
ghost use Rattle.erst_client.specs.declared.requests.Request.{Request};
ghost use Rattle.erst_client.specs.Requests.{Asks};
ghost use Rattle.erst_client.specs.Sequences.{Sequence};
ghost use Rattle.erst_client.specs.Attaching.{Attaches};
ghost use Rattle.erst_client.specs.Commands.{ClientState, Writes, Counts, Names};
ghost use Rattle.erst_machine.specs.MachineState.{MachineState, IsMachine};
ghost use Rattle.erst_machine.specs.Allowed.{Allows};
ghost use Rattle.erst_machine.specs.Events.{Happens, Submits, Turns, LaysFatal};
ghost use Rattle.erst_commands.specs.Equivalence.{IsDoneAlike, asked, answered, asked_event, answered_event};
ghost use Rattle.erst_commands.specs.EquivalentTheorems.{EachActionIsAlike, IsMadeAlike, IsAnsweredAlike, EachReadOfBytesIsAlike, EachRecordIsReadAlike, EachBufferIsFilledAlike};
ghost use Rattle.erst_commands.specs.EquivalentTheorems.{EachBootIsAlike, EachFlashBootsAlike, EachRegionHasOneList};

use flash_model::Flash;

/// One action of two devices that are equivalent, over flashes that fail nothing, leaves devices that are equivalent and the same log range.
pub fn equivalent_devices_act_alike<F: Flash>()
    ensures { F.tells → (action : Option Action) → EachActionIsAlike F.tells action }
{}

/// Two calls that ask the same of two machines that are equivalent, over flashes that fail nothing, are answered the same and leave machines
/// that are equivalent.
pub fn equivalent_machines_answer_alike<F: Flash>()
    ensures { F.tells → (one : MachineState) → IsMadeAlike asked answered (Allows F.tells) one }
{}

/// A read of bytes into buffers of the same length is answered the same, and fills them alike, whatever the flashes do.
pub fn equivalent_machines_show_alike<F: Flash>()
    ensures { F.tells → (at : ℕ) → EachReadOfBytesIsAlike F.tells at }
{}

/// A run of any program, with any given value and any budget, answers the same, with as many steps left, and leaves machines that are equivalent.
pub fn equivalent_machines_run_alike<F: Flash>()
    ensures { F.tells → (program : Listed) (given budget : ℕ)
        → IsDoneAlike {A = Result ℕ RunStop} (Run (Allows F.tells) program given budget) }
{}

/// So do the programs of any table for some requests, one after another.
pub fn equivalent_machines_ask_alike<F: Flash>()
    ensures { F.tells → (entries : List Entry) (requests : List Request) (budget : ℕ)
        → IsDoneAlike {A = Result (List ℕ) RunStop} (Asks (Allows F.tells) entries requests budget) }
{}

/// Attaching to any table finds the same.
pub fn equivalent_machines_attach_alike<F: Flash>()
    ensures { F.tells → (table : Erst) (budget : ℕ)
        → IsDoneAlike {A = Result ClientState AttachError} (Attaches (Allows F.tells) table budget) }
{}

/// A sequence of any requests, as those of a clear or a dummy write, is answered the same.
pub fn equivalent_machines_end_sequences_alike<F: Flash>()
    ensures { F.tells → (entries : List Entry) (timings : Option (ℕ × ℕ)) (requests : List Request) (budget : ℕ)
        → IsDoneAlike {A = Result (Unit {0}) ClientError} (Sequence (Allows F.tells) entries timings requests budget) }
{}

/// A client's write is answered the same.
pub fn equivalent_machines_write_alike<F: Flash>()
    ensures { F.tells → (client : ClientState) (bytes : List ℕ) (budget : ℕ)
        → IsDoneAlike {A = Result (Unit {0}) ClientError} (Writes (Allows F.tells) client bytes budget) }
{}

/// A client's read into buffers of the same length is answered the same, and the bytes of the record that they hold then are the same; and
/// so are all bytes of buffers that held the same before.
pub fn equivalent_machines_read_alike<F: Flash>()
    ensures records { F.tells → (client : ClientState) (id budget : ℕ)
        → EachRecordIsReadAlike F.tells client id budget }
    ensures buffers { F.tells → (client : ClientState) (id budget : ℕ)
        → EachBufferIsFilledAlike F.tells client id budget }
{}

/// A count is the same.
pub fn equivalent_machines_count_alike<F: Flash>()
    ensures { F.tells → (entries : List Entry) (budget : ℕ)
        → IsDoneAlike {A = Result ℕ ClientError} (Counts (Allows F.tells) entries budget) }
{}

/// Next names the same identifier, or none.
pub fn equivalent_machines_name_alike<F: Flash>()
    ensures { F.tells → (entries : List Entry) (budget : ℕ)
        → IsDoneAlike {A = Result (Option ℕ) ClientError} (Names (Allows F.tells) entries budget) }
{}

/// Calls of the handover and fatal blocks are answered the same, and leave machines that are equivalent, whatever the flashes do.
pub fn equivalent_machines_hand_over_alike()
    ensures submits { (block : List ℕ) (one : MachineState) → IsAnsweredAlike (λ old. Submits old block) one }
    ensures turns { (side : AnySide) (one : MachineState) → IsAnsweredAlike (Turns side) one }
    ensures lays { (block : List ℕ) (one : MachineState) → IsMachine one
        → IsAnsweredAlike (λ old. LaysFatal old block) one }
{}

/// Restarts, calls of the handover and fatal blocks too are answered the same, and leave machines that are equivalent.
pub fn equivalent_machines_go_on_alike<F: Flash>()
    ensures { F.tells → (one : MachineState) → IsMachine one
        → IsMadeAlike asked_event answered_event (Happens F.tells) one }
{}

/// So does whatever happens to two machines that are equivalent, one event after another.
pub fn equivalent_machines_stay_alike<F: Flash>()
    ensures { F.tells → (one : MachineState) → IsMachine one
        → IsMadeAlike (λ moves. map (λ move. asked_event move.event) moves) (λ moves. map (λ move. answered_event move.event) moves)
        (Trail (Happens F.tells)) one }
{}

/// Machines of one geometry that have just booted are equivalent where they hold the same records and their flashes have made as many changes;
/// and so over flashes with the same records, as many changes and as many second copies.
pub fn equivalent_flashes_boot_alike()
    ensures machines { (geometry : Geometry) → EachBootIsAlike geometry }
    ensures flashes { (geometry : Geometry) → EachFlashBootsAlike geometry }
{}

/// A boot error region has one list of blocks.
pub fn a_region_has_one_list()
    ensures { EachRegionHasOneList }
{}
