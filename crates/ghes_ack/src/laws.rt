// Laws of a handover: the functions do nothing, and their clauses are the laws.
ghost use Rattle.std.specs.Prelude.{◌≡◌, ◌≤◌, ℕ, List, length, take};
ghost use Rattle.apei_space.specs.RamState.{RamState};
ghost use Rattle.ghes_ack.specs.declared.maps.HandoverMap.{HandoverMap as AnyMap};
ghost use Rattle.ghes_ack.specs.declared.events.Side.TheVariants.{Firmware as OfFirmware, Reader as OfReader};
ghost use Rattle.ghes_ack.specs.declared.events.Event.TheVariants.{Took as OfTook};
ghost use Rattle.ghes_ack.specs.Machine.{Machine, Fits, IsState, turned, last_taken, started};
ghost use Rattle.ghes_ack.specs.Maps.{HasWindows, ack_read, window, with_window, with_ack};
ghost use Rattle.ghes_ack.specs.Elsewhere.{SameInMap};
ghost use Rattle.ghes_ack.specs.Handovers.{HandoverState, WithMemory, StandsFor};
ghost use Rattle.ghes_ack.specs.Schedules.{Step, run, from_start, AreFitting, AreInOrder, IsHeld, submissions, Call, DoAll, HandsOver};

/// Whatever is submitted, and whoever takes the turns: the machine stays in its five situations, and what the reader copied
/// out of the window are the first blocks of those submitted, as many as were taken, whole, each once, in order.
pub fn every_schedule()
    ensures states { (window : List ℕ) (steps : List Step) → 20 ≤ length window → AreFitting (length window) steps →
        IsState (length window) (run (from_start window) steps).machine }
    ensures submitted { (window : List ℕ) (steps : List Step) →
        (run (from_start window) steps).machine.blocks ≡ submissions steps }
    ensures taken { (window : List ℕ) (steps : List Step) → 20 ≤ length window → AreFitting (length window) steps →
        (run (from_start window) steps).taken
        ≡ take (run (from_start window) steps).machine.taken (submissions steps) }
    ensures order { (window : List ℕ) (steps : List Step) → 20 ≤ length window → AreFitting (length window) steps →
        AreInOrder (run (from_start window) steps).machine }
{}

/// From the publication of a block to its acknowledgement no turn of the firmware changes anything.
pub fn nothing_while_held()
    ensures { (m : Machine) → IsHeld m.situation → (turned OfFirmware m).1 ≡ m }
{}

/// What `new`, `restart`, `submit`, `turn` and `turns` say, put together: after any list of calls from a start, with anything that
/// others write elsewhere between them, the handover stands for the machine that made the same steps, and its turns answered
/// the machine's events.
pub fn every_list_of_calls()
    ensures { (window : List ℕ) (calls : List Call) (first last : WithMemory HandoverState) →
        StandsFor first.state first.memory (started window) → DoAll calls first last → HandsOver window calls last }
{}

/// What others write outside the three windows leaves the handover as it was.
pub fn others_may_write_elsewhere()
    ensures { (h : HandoverState) (old new : RamState) (m : Machine) →
        SameInMap h.map old new → StandsFor h old m → StandsFor h new m }
{}

/// What each side writes, the other side's register or window keeps: a write of the window leaves the acknowledge register,
/// and a write of the register leaves the window.
pub fn each_side_keeps()
    ensures register { (map : AnyMap) (ram : RamState) (bytes : List ℕ) → HasWindows map ram → length bytes ≡ map.len →
        ack_read map (with_window map ram bytes) ≡ ack_read map ram }
    ensures window { (map : AnyMap) (ram : RamState) (value : ℕ) → HasWindows map ram →
        window map (with_ack map ram value) ≡ window map ram }
{}

/// A block that a turn of the reader took has a head, and fits into the window.
pub fn a_taken_block_fits()
    ensures { (len : ℕ) (m : Machine) → IsState len m → OfTook ≡ (turned OfReader m).0
        → Fits len (last_taken (turned OfReader m).1) }
{}
