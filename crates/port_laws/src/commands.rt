// The laws: the functions do nothing, and their clauses are the laws.
ghost use Rattle.std.specs.Prelude.{◌≡◌, ℕ, ◌+◌, ◌≤◌, ◌<◌, ◌%◌, ◌^◌, List, length, Contains, IsSome, Option, Some, Result, Ok, Err};
ghost use Rattle.std.specs.FinMap.{get};
ghost use Rattle.record_model.specs.RecordMap.{Write, Clear};
ghost use Rattle.apei_tables.specs.declared.registers.Place.TheVariants.{Memory};
ghost use Rattle.apei_tables.specs.declared.widths.Width.TheVariants.{B32, B64};
ghost use Rattle.apei_space.specs.declared.faults.SpaceFault.{SpaceFault};
ghost use Rattle.apei_space.specs.Accesses.{Reaches};
ghost use Rattle.apei_space.specs.Calls.{Read as read_call, Write as write_call, Wait, ReadBytes, WriteBytes};
ghost use Rattle.erst_entries.specs.declared.actions.Action.{Action};
ghost use Rattle.erst_interp.specs.declared.stops.RunStop.{RunStop};
ghost use Rattle.erst_client.specs.declared.errors.AttachError.{AttachError};
ghost use Rattle.erst_client.specs.declared.requests.Request.{Request};
ghost use Rattle.erst_client.specs.Commands.{ClientState};
ghost use Rattle.erst_device.specs.Actions.{log_range_at};
ghost use Rattle.erst_device.specs.DeviceState.{records};
ghost use Rattle.erst_machine.specs.declared.areas.Area.TheVariants.{Device};
ghost use Rattle.erst_machine.specs.Areas.{base_of};
ghost use Rattle.erst_machine.specs.MachineState.{IsMachine};
ghost use Rattle.erst_commands.specs.Looks.{AsksOnce};
ghost use Rattle.erst_commands.specs.Operations.{ClearOperation};
ghost use Rattle.erst_commands.specs.Runs.{RunFrom, CallFrom, own_table, shown_run, IsAttaching, IsProgram, IsSequenceOf, IsSequence, IsNext, IsWrite};
ghost use Rattle.erst_commands.specs.Theorems.{timings_in, EachCountIsTheMaps, EachWriteIsTheMaps, EachClearIsTheMaps, EachDummyWriteChangesNothing, EachReadIsTheMaps, ClientWritesAsTheMap, ClientReadsAsTheMap};
ghost use Rattle.erst_commands.specs.Theorems.{EachSequenceHasItsCause, EachCountHasItsCause, EachNextHasItsCause, EachWriteHasItsCause, EachReadHasItsCause};
ghost use Rattle.erst_commands.specs.Theorems.{EachSequenceGoesThrough, EachCountGoesThrough, EachNextGoesThrough, EachWriteGoesThrough, EachReadGoesThrough};
ghost use Rattle.erst_commands.specs.Writes.{marked, id_of};
ghost use Rattle.erst_port.specs.declared.windows.Addresses.{Addresses};
ghost use Rattle.erst_port.specs.PortState.{IsPort};
ghost use Rattle.erst_port.specs.PortTables.{port_erst};
ghost use Rattle.erst_listing.specs.declared.errors.ListError.TheVariants.{Full};
ghost use Rattle.erst_listing.specs.Devices.{AreDistinct};
ghost use Rattle.port_laws.specs.Listings.{ListsPort, Listing, Rising, AreAll, AreAllAbove, StartsAnew, IsNotGreater};
ghost use Rattle.port_laws.specs.Looks.{NextRound};
ghost use Rattle.port_laws.specs.Machines.{machine_of, IsShared, AreShared};
ghost use Rattle.port_laws.specs.PortClients.{port_table, port_client, IsTheMachines, AttachesPort, MakesRecords};
ghost use Rattle.port_laws.specs.PortSpaces.{SpaceState, Goes};

use erst_listing::a_listing_has_all;

/// The device and the log range of a port are those of a machine, and an access of the port is one of that machine at the machine's own
/// addresses: all that a client needs, but for the codes of two actions, which a port carries out in its own way.
pub fn an_access_is_the_machines()
    ensures machine { (state : SpaceState) → IsPort state.port → IsMachine (machine_of state) }
    ensures value_read { (addresses : Addresses) (old : SpaceState) (answer : Result ℕ SpaceFault)
        → IsTheMachines addresses old (read_call (Memory (addresses.registers + 8)) B64 answer)
        (read_call (Memory (base_of Device + 8)) B64 answer) }
    ensures value_written { (addresses : Addresses) (old : SpaceState) (number : ℕ)
        (answer : Result (Unit {0}) SpaceFault)
        → IsTheMachines addresses old (write_call (Memory (addresses.registers + 8)) B64 number answer)
        (write_call (Memory (base_of Device + 8)) B64 number answer) }
    ensures code_written { (addresses : Addresses) (old : SpaceState) (number : ℕ)
        (answer : Result (Unit {0}) SpaceFault) → (number % 2 ^ 32 ≡ 0xD → ⊥) → (number % 2 ^ 32 ≡ 0x8 → ⊥)
        → IsTheMachines addresses old (write_call (Memory addresses.registers) B32 number answer)
        (write_call (Memory (base_of Device)) B32 number answer) }
    ensures bytes_read { (addresses : Addresses) (old : SpaceState) (k : ℕ) (before after : List ℕ)
        (answer : Result (Unit {0}) SpaceFault) → 0 < length before → k + length before ≤ length old.port.range
        → IsTheMachines addresses old (ReadBytes (addresses.range + k) before after answer)
        (ReadBytes (log_range_at + k) before after answer) }
    ensures bytes_written { (addresses : Addresses) (old : SpaceState) (k : ℕ) (bytes : List ℕ)
        (answer : Result (Unit {0}) SpaceFault) → 0 < length bytes → k + length bytes ≤ length old.port.range
        → IsTheMachines addresses old (WriteBytes (addresses.range + k) bytes answer)
        (WriteBytes (log_range_at + k) bytes answer) }
    ensures wait { (addresses : Addresses) (old : SpaceState) (micros : ℕ)
        → IsTheMachines addresses old (Wait micros) (Wait micros) }
{}

/// So a run of a program of the port's table is a run of the same program of the machine's own table, with the same answer and the same
/// steps, and a sequence is the same sequence.
pub fn programs_run_as_the_machines()
    ensures program { (addresses : Addresses) (action : Action) → IsShared action
        → (given : ℕ) (first : SpaceState) (run : RunFrom first (Result ℕ RunStop))
        → IsProgram (port_table addresses) action given run
        → IsProgram (own_table (Unit {0})) action given (shown_run (port_table addresses) run) }
    ensures sequence { (addresses : Addresses) (timings : Option (ℕ × ℕ)) (requests : List Request)
        → AreShared requests → (first : SpaceState) (run : CallFrom first (Unit {0}))
        → IsSequenceOf (port_table addresses) timings requests run
        → IsSequenceOf (own_table (Unit {0})) timings requests (shown_run (port_table addresses) run) }
{}

/// Attaching to the port's table finds the port's log range and the machine's timings, with any budget of eight steps or more.
pub fn attaching_never_fails()
    ensures { (first : SpaceState) → IsPort first.port → (run : RunFrom first (Result ClientState AttachError))
        → 8 ≤ run.budget
        → IsAttaching (Goes first.port.addresses) (port_erst first.port.addresses.registers) run → AttachesPort run }
{}

/// A client's write is answered, and leaves the device and the log range, as one over the machine: bytes that are no one record, or too
/// long, are refused, and a record is put into the log range, marked, and written as the map does. Where it is answered well, the port's
/// records are those with it.
pub fn a_client_writes_as_the_map()
    ensures answered { (first : SpaceState) → IsPort first.port
        → ClientWritesAsTheMap (port_table first.port.addresses) (port_client first) first }
    ensures records { (first : SpaceState) → IsPort first.port → (bytes : List ℕ) (run : CallFrom first (Unit {0}))
        → IsWrite (port_table first.port.addresses) (port_client first) bytes run
        → MakesRecords (Write (id_of bytes) (marked bytes)) run }
{}

/// A client's read: the log range then begins with the record, and so many bytes of it are copied out; or it is refused as by the map.
pub fn a_client_reads_as_the_map()
    ensures { (first : SpaceState) → IsPort first.port
        → ClientReadsAsTheMap (port_table first.port.addresses) (port_client first) first }
{}

/// A write's sequence, from a log range that begins with the record.
pub fn a_write_is_the_maps()
    ensures { (addresses : Addresses) (first : SpaceState) → EachWriteIsTheMaps (port_table addresses) first }
{}

/// A read's sequence: the log range then begins with the record, and the cursor is at its identifier; or it is refused as by the map.
pub fn a_read_is_the_maps()
    ensures { (addresses : Addresses) (first : SpaceState) → IsPort first.port
        → EachReadIsTheMaps (port_table addresses) first }
{}

/// A clear's sequence. Where it is answered well, the port's records are those without the cleared one.
pub fn a_clear_is_the_maps()
    ensures answered { (addresses : Addresses) (first : SpaceState) → EachClearIsTheMaps (port_table addresses) first }
    ensures records { (addresses : Addresses) (first : SpaceState) (id : ℕ) → id < 2 ^ 64
        → (run : CallFrom first (Unit {0}))
        → IsSequence (port_table addresses) (timings_in (port_table addresses) first) (ClearOperation id) run
        → MakesRecords (Clear id) run }
{}

/// A count answers how many records the port's flash holds.
pub fn a_count_is_the_maps()
    ensures { (addresses : Addresses) (first : SpaceState) → EachCountIsTheMaps (port_table addresses) first }
{}

/// A dummy write's sequence goes through and leaves the store with its execution given up.
pub fn a_dummy_write_changes_nothing()
    ensures { (addresses : Addresses) (first : SpaceState)
        → EachDummyWriteChangesNothing (port_table addresses) first }
{}

/// The next identifier is the least stored one above the cursor; where none is above it, the least of all; and none only where no record is stored.
pub fn next_goes_round()
    ensures { (addresses : Addresses) (first : SpaceState) (run : CallFrom first (Option ℕ))
        → IsNext (port_table addresses) run
        → AsksOnce (NextRound (machine_of first) (machine_of run.last)) run.budget (machine_of first)
        (machine_of run.last) run.answer run.left }
{}

/// A client that asks for the next identifier until one comes again has been told each stored one, wherever it began. Each is told once, since
/// it ends at the first that comes again.
pub fn a_listing_comes_round()
    ensures { (addresses : Addresses) (listing : Listing addresses) (id : ℕ) → listing.next.answer ≡ Ok (Some id)
        → Contains listing.ids id → AreAll (records listing.first.port.device) listing.ids }
{}

/// One that asks while the identifiers rise has been told those above the cursor that it began at, each once and in order; behind a restart the
/// cursor is 0, and these are all. What is told then is the first one.
pub fn a_listing_rises()
    ensures listed { (addresses : Addresses) (listing : Listing addresses)
        → Rising listing.first.port.device.cursor listing.ids
        → IsNotGreater listing.last.port.device.cursor listing.next.answer
        → AreAllAbove listing.first.port.device.cursor (records listing.first.port.device) listing.ids }
    ensures anew { (addresses : Addresses) (listing : Listing addresses)
        → Rising listing.first.port.device.cursor listing.ids
        → IsNotGreater listing.last.port.device.cursor listing.next.answer
        → StartsAnew (records listing.first.port.device) listing.next.answer }
{}

/// So a listing of `erst_listing` that goes through, wherever the cursor is, has the stored identifiers, each once; and one that has no room
/// leaves one out.
pub fn a_listing_has_all_records()
    ensures all { (addresses : Addresses) (steps room : ℕ) (first : SpaceState) (ids : List ℕ) (last : SpaceState)
        → ListsPort addresses steps room first (Ok tt) ids last → AreAll (records first.port.device) ids }
    ensures once { (addresses : Addresses) (steps room : ℕ) (first : SpaceState) (ids : List ℕ) (last : SpaceState)
        → ListsPort addresses steps room first (Ok tt) ids last → AreDistinct ids }
    ensures full { (addresses : Addresses) (steps room : ℕ) (first : SpaceState) (ids : List ℕ) (last : SpaceState)
        → ListsPort addresses steps room first (Err Full) ids last → (length ids ≡ room) × (id : ℕ)
        × IsSome (get (records first.port.device) id) × (Contains ids id → ⊥) }
{
    a_listing_has_all();
}

/// The port's count of faults never falls, and a call is answered `Hardware` only where it rose.
pub fn hardware_has_its_cause()
    ensures sequence { (addresses : Addresses) (first : SpaceState)
        → EachSequenceHasItsCause (port_table addresses) first }
    ensures count { (addresses : Addresses) (first : SpaceState) → EachCountHasItsCause (port_table addresses) first }
    ensures next { (addresses : Addresses) (first : SpaceState) → EachNextHasItsCause (port_table addresses) first }
    ensures write { (first : SpaceState) → IsPort first.port
        → EachWriteHasItsCause (port_table first.port.addresses) (port_client first) first }
    ensures read { (first : SpaceState) → IsPort first.port → (id : ℕ) → id < 2 ^ 64
        → EachReadHasItsCause (port_table first.port.addresses) (port_client first) id first }
{}

/// With the steps that are enough by the port's timings a command is never stopped, and never late.
pub fn enough_steps_go_through()
    ensures sequence { (first : SpaceState) → IsPort first.port
        → EachSequenceGoesThrough (port_table first.port.addresses) first }
    ensures count { (addresses : Addresses) (first : SpaceState) → EachCountGoesThrough (port_table addresses) first }
    ensures next { (addresses : Addresses) (first : SpaceState) → EachNextGoesThrough (port_table addresses) first }
    ensures write { (first : SpaceState) → IsPort first.port
        → EachWriteGoesThrough (port_table first.port.addresses) (port_client first) first }
    ensures read { (first : SpaceState) → IsPort first.port
        → EachReadGoesThrough (port_table first.port.addresses) (port_client first) first }
{}

/// Whatever accesses a client makes, the windows stay where they are, and so do the table and the flash's place in its medium.
pub fn accesses_leave_the_windows()
    ensures port { (addresses : Addresses) (first last : SpaceState) → IsPort first.port
        → Reaches (Goes addresses) first last → IsPort last.port }
    ensures others { (addresses : Addresses) (first last : SpaceState) → IsPort first.port
        → Reaches (Goes addresses) first last → last.port ≡ record first.port {
          device = last.port.device;
          range = last.port.range;
          made = last.port.made;
        } }
{}
