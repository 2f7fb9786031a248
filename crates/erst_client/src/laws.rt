// Laws on commands: the functions do nothing, and their clauses are the laws.
ghost use Rattle.std.specs.Prelude.{◌≡◌, ◌+◌, ◌*◌, ◌<◌, ◌≤◌, ℕ, List, length, Option, Some, Result};
ghost use Rattle.apei_space.specs.declared.faults.SpaceFault.{SpaceFault};
ghost use Rattle.erst_entries.specs.declared.actions.Action.{Action};
ghost use Rattle.erst_entries.specs.declared.actions.Action.TheVariants.{GetRecordCount, GetRecordIdentifier};
ghost use Rattle.erst_entries.specs.declared.entries.Entry.{Entry};
ghost use Rattle.erst_entries.specs.Layout.{Erst};
ghost use Rattle.erst_interp.specs.declared.stops.RunStop.{RunStop};
ghost use Rattle.erst_interp.specs.Told.{demanded, ended, bound};
ghost use Rattle.erst_client.specs.declared.asking.Asking.{Asking};
ghost use Rattle.erst_client.specs.Requests.{Performs};
ghost use Rattle.erst_interp.specs.declared.demands.Demand.{Demand};
ghost use Rattle.erst_client.specs.declared.attaching.FoundRange.{FoundRange};
ghost use Rattle.erst_client.specs.declared.errors.AttachError.{AttachError};
ghost use Rattle.erst_client.specs.declared.errors.ClientError.{ClientError};
ghost use Rattle.erst_client.specs.declared.finding.Finding.{Finding};
ghost use Rattle.erst_client.specs.declared.positions.Position.{Position};
ghost use Rattle.erst_client.specs.declared.reading.Reading.{Reading};
ghost use Rattle.erst_client.specs.declared.reading.ReadDemand.{ReadDemand};
ghost use Rattle.erst_client.specs.declared.stages.Command.{Command};
ghost use Rattle.erst_client.specs.declared.stages.Part.TheVariants.{Begin};
ghost use Rattle.erst_client.specs.declared.stages.Stage.TheVariants.{Requesting};
ghost use Rattle.erst_client.specs.declared.writing.Writing.{Writing};
ghost use Rattle.erst_client.specs.declared.writing.WriteDemand.{WriteDemand};
ghost use Rattle.erst_client.specs.Sequences.{Sequence};
ghost use Rattle.erst_client.specs.Commands.{ClientState, Writes, Reads, Counts, Names};
ghost use Rattle.erst_client.specs.Asking.{asking_first, asking_answered, counted_by, named_by, AskingMoves, AskingStands, AskingMade};
ghost use Rattle.erst_client.specs.Attaching.{client_with, Attaches, client_result};
ghost use Rattle.erst_client.specs.Finding.{finding_first, finding_demanded, finding_answered, finding_result, finding_left, finding_bound, FindingMoves, FindingStands, FindingMade};
ghost use Rattle.erst_client.specs.Writing.{write_first, write_demanded, write_answered, write_result, write_left, WriteMoves, WriteStands, WriteMade};
ghost use Rattle.erst_client.specs.Reading.{read_first, read_demanded, read_answered, read_result, read_left, read_bound, ReadMoves, ReadStands, ReadMade};
ghost use Rattle.erst_client.specs.Stages.{requests_of};
ghost use Rattle.erst_client.specs.Positions.{entered, demanded_at, answered_at, result_at, Moves, MadeAt, StandsAt};
ghost use Rattle.erst_client.specs.Bounds.{bound_of, write_bound};

use apei_space::Space;

/// A command that tells its accesses is a sequence over whatever space answers them: a `Position` stands where the command
/// begins, what it does without an access keeps it on the sequence, and so does each answer that the space may give to the
/// access that it tells. Once it has its result, it was the sequence.
pub fn a_told_command_is_a_sequence<S: Space>()
    ensures begins { (entries : List Entry) (command : Command) (timings : Option (ℕ × ℕ)) (budget : ℕ) (first : S.State)
        → StandsAt S.allows entries command timings budget first (entered entries command (Requesting Begin) budget) first }
    ensures moves { (entries : List Entry) (command : Command) (timings : Option (ℕ × ℕ)) (budget : ℕ) (first : S.State)
        (old at : Position) (now : S.State) → Moves entries command timings old at
        → StandsAt S.allows entries command timings budget first old now
        → StandsAt S.allows entries command timings budget first at now }
    ensures answered { (entries : List Entry) (command : Command) (timings : Option (ℕ × ℕ)) (budget : ℕ) (first : S.State)
        (at : Position) (now : S.State) (answer : Result ℕ SpaceFault) (last : S.State)
        → StandsAt S.allows entries command timings budget first at now → MadeAt S.allows timings at now answer last
        → StandsAt S.allows entries command timings budget first (answered_at entries command at answer) last }
    ensures ends { (entries : List Entry) (command : Command) (timings : Option (ℕ × ℕ)) (budget : ℕ) (first : S.State)
        (at : Position) (now : S.State) (result : Result (Unit {0}) ClientError) → result_at at.stage ≡ Some result
        → StandsAt S.allows entries command timings budget first at now
        → Sequence S.allows entries timings (requests_of command) budget first result at.kept now }
{}

/// It ends whatever it is answered: a command of N steps tells at most 300 + 4 N accesses, waits included. One number begins
/// there, does not rise without an access, and falls with each answer.
pub fn a_told_command_ends()
    ensures begins { (entries : List Entry) (command : Command) (budget : ℕ)
        → bound_of entries (entered entries command (Requesting Begin) budget) ≤ 300 + 4 * budget }
    ensures moves { (entries : List Entry) (command : Command) (timings : Option (ℕ × ℕ)) (old at : Position)
        → Moves entries command timings old at → bound_of entries at ≤ bound_of entries old }
    ensures answered { (entries : List Entry) (command : Command) (timings : Option (ℕ × ℕ)) (at : Position)
        (answer : Result ℕ SpaceFault) (demand : Demand) → demanded_at timings at ≡ Some demand
        → bound_of entries (answered_at entries command at answer) < bound_of entries at }
{}

/// The same of a write, whose record and mark are put into the range first.
pub fn a_told_write_is_a_write<S: Space>()
    ensures begins { (erst : Erst) (found : FoundRange) (bytes : List ℕ) (steps : ℕ) (first : S.State)
        → WriteStands S.allows (client_with erst found) bytes steps first (write_first found bytes) first }
    ensures moves { (client : ClientState) (bytes : List ℕ) (steps : ℕ) (first : S.State) (old at : Writing) (now : S.State)
        → WriteMoves client.table.entries client.timings old at → WriteStands S.allows client bytes steps first old now
        → WriteStands S.allows client bytes steps first at now }
    ensures answered { (client : ClientState) (bytes : List ℕ) (steps : ℕ) (first : S.State) (at : Writing) (now : S.State)
        (answer : Result ℕ SpaceFault) (last : S.State) → WriteStands S.allows client bytes steps first at now
        → WriteMade S.allows client bytes at now answer last
        → WriteStands S.allows client bytes steps first (write_answered client.table.entries steps at answer) last }
    ensures ends { (client : ClientState) (bytes : List ℕ) (steps : ℕ) (first : S.State) (at : Writing) (now : S.State)
        (result : Result (Unit {0}) ClientError) → write_result at ≡ Some result
        → WriteStands S.allows client bytes steps first at now
        → Writes S.allows client bytes steps first result (write_left steps at) now }
{}

/// The same of a read, which copies the record out of the range behind its sequence. `held` is what the buffer holds.
pub fn a_told_read_is_a_read<S: Space>()
    ensures begins { (client : ClientState) (id : ℕ) (out : List ℕ) (steps : ℕ) (first : S.State)
        → ReadStands S.allows client id out steps first (read_first client.table.entries id steps) out first }
    ensures moves { (client : ClientState) (id : ℕ) (out : List ℕ) (steps : ℕ) (first : S.State) (old at : Reading)
        (held : List ℕ) (now : S.State) → ReadMoves client.table.entries id client.timings old at
        → ReadStands S.allows client id out steps first old held now
        → ReadStands S.allows client id out steps first at held now }
    ensures answered { (client : ClientState) (id : ℕ) (out : List ℕ) (steps : ℕ) (first : S.State) (at : Reading)
        (held : List ℕ) (now : S.State) (answer : Result ℕ SpaceFault) (after : List ℕ) (last : S.State)
        → ReadStands S.allows client id out steps first at held now
        → ReadMade S.allows client at held now answer after last
        → ReadStands S.allows client id out steps first
        (read_answered client.table.entries client.range id (length out) at answer) after last }
    ensures ends { (client : ClientState) (id : ℕ) (out : List ℕ) (steps : ℕ) (first : S.State) (at : Reading)
        (held : List ℕ) (now : S.State) (result : Result ℕ ClientError) → read_result at ≡ Some result
        → ReadStands S.allows client id out steps first at held now
        → Reads S.allows client id out steps first result held (read_left at) now }
{}

/// A write and a read end too: each makes at most two accesses more than its sequence.
pub fn a_told_record_ends()
    ensures write_begins { (found : FoundRange) (bytes : List ℕ) (entries : List Entry) (steps : ℕ)
        → write_bound entries steps (write_first found bytes) ≤ 302 + 4 * steps }
    ensures write_moves { (entries : List Entry) (timings : Option (ℕ × ℕ)) (steps : ℕ) (old at : Writing)
        → WriteMoves entries timings old at → write_bound entries steps at ≤ write_bound entries steps old }
    ensures write_answered { (entries : List Entry) (found : FoundRange) (steps : ℕ) (at : Writing)
        (answer : Result ℕ SpaceFault) (demand : WriteDemand) → write_demanded found at ≡ Some demand
        → write_bound entries steps (write_answered entries steps at answer) < write_bound entries steps at }
    ensures read_begins { (entries : List Entry) (id steps : ℕ)
        → read_bound entries (read_first entries id steps) ≤ 302 + 4 * steps }
    ensures read_moves { (entries : List Entry) (id : ℕ) (timings : Option (ℕ × ℕ)) (old at : Reading)
        → ReadMoves entries id timings old at → read_bound entries at ≤ read_bound entries old }
    ensures read_answered { (entries : List Entry) (found : FoundRange) (id room : ℕ) (at : Reading)
        (answer : Result ℕ SpaceFault) (demand : ReadDemand) → read_demanded found at ≡ Some demand
        → read_bound entries (read_answered entries found.len id room at answer) < read_bound entries at }
{}

/// The same of a request that is given no value, and so of GET_RECORD_COUNT and GET_RECORD_IDENTIFIER.
pub fn a_told_request_is_made<S: Space>()
    ensures begins { (entries : List Entry) (action : Action) (steps : ℕ) (first : S.State)
        → AskingStands S.allows entries action steps first (asking_first entries action steps) first }
    ensures moves { (entries : List Entry) (action : Action) (steps : ℕ) (first : S.State) (old at : Asking) (now : S.State)
        → AskingMoves entries old at → AskingStands S.allows entries action steps first old now
        → AskingStands S.allows entries action steps first at now }
    ensures answered { (entries : List Entry) (action : Action) (steps : ℕ) (first : S.State) (at : Asking) (now : S.State)
        (answer : Result ℕ SpaceFault) (last : S.State) → AskingStands S.allows entries action steps first at now
        → AskingMade S.allows at now answer last
        → AskingStands S.allows entries action steps first (asking_answered at answer) last }
    ensures performs { (entries : List Entry) (action : Action) (steps : ℕ) (first : S.State) (at : Asking) (now : S.State)
        (answer : Result ℕ RunStop) → ended at.state ≡ Some answer
        → AskingStands S.allows entries action steps first at now
        → Performs S.allows entries action 0 steps first answer at.left now }
    ensures counts { (entries : List Entry) (steps : ℕ) (first : S.State) (at : Asking) (now : S.State)
        (result : Result ℕ ClientError) → counted_by (ended at.state) ≡ Some result
        → AskingStands S.allows entries GetRecordCount steps first at now
        → Counts S.allows entries steps first result at.left now }
    ensures names { (entries : List Entry) (steps : ℕ) (first : S.State) (at : Asking) (now : S.State)
        (result : Result (Option ℕ) ClientError) → named_by (ended at.state) ≡ Some result
        → AskingStands S.allows entries GetRecordIdentifier steps first at now
        → Names S.allows entries steps first result at.left now }
{}

/// It ends too: a request tells at most 4 accesses for each of its steps.
pub fn a_told_request_ends()
    ensures begins { (entries : List Entry) (action : Action) (steps : ℕ)
        → bound (asking_first entries action steps).state steps ≤ 4 * steps }
    ensures moves { (entries : List Entry) (old at : Asking) → AskingMoves entries old at
        → bound at.state at.left ≤ bound old.state old.left }
    ensures answered { (at : Asking) (answer : Result ℕ SpaceFault) (demand : Demand) → demanded at.state ≡ Some demand
        → bound (asking_answered at answer).state (asking_answered at answer).left < bound at.state at.left }
{}

/// The same of a client that attaches.
pub fn a_told_client_attaches<S: Space>()
    ensures begins { (erst : Erst) (steps : ℕ) (first : S.State)
        → FindingStands S.allows erst steps first (finding_first erst.entries steps) first }
    ensures moves { (erst : Erst) (steps : ℕ) (first : S.State) (old at : Finding) (now : S.State)
        → FindingMoves erst.entries old at → FindingStands S.allows erst steps first old now
        → FindingStands S.allows erst steps first at now }
    ensures answered { (erst : Erst) (steps : ℕ) (first : S.State) (at : Finding) (now : S.State)
        (answer : Result ℕ SpaceFault) (last : S.State) → FindingStands S.allows erst steps first at now
        → FindingMade S.allows at now answer last
        → FindingStands S.allows erst steps first (finding_answered at answer) last }
    ensures ends { (erst : Erst) (steps : ℕ) (first : S.State) (at : Finding) (now : S.State)
        (result : Result FoundRange AttachError) → finding_result at ≡ Some result
        → FindingStands S.allows erst steps first at now
        → Attaches S.allows erst steps first (client_result erst result) (finding_left at) now }
{}

/// It ends too: attaching tells at most 4 accesses for each of its steps.
pub fn a_told_attaching_ends()
    ensures begins { (entries : List Entry) (steps : ℕ) → finding_bound (finding_first entries steps) ≤ 4 * steps }
    ensures moves { (entries : List Entry) (old at : Finding) → FindingMoves entries old at
        → finding_bound at ≤ finding_bound old }
    ensures answered { (at : Finding) (answer : Result ℕ SpaceFault) (demand : Demand)
        → finding_demanded at ≡ Some demand → finding_bound (finding_answered at answer) < finding_bound at }
{}
