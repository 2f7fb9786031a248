// Laws of a bridge: the functions do nothing, and their clauses are the laws.
ghost use Rattle.std.specs.Prelude.{◌≡◌, ℕ, ◌+◌, ◌^◌, ◌<◌, ◌≤◌, List, length};
ghost use Rattle.base_model.specs.Bytes.{number_at, part};
ghost use Rattle.cper_frame.specs.Reading.{IsWhole};
ghost use Rattle.ghes_ack.specs.declared.events.Side.TheVariants.{Reader as OfReader};
ghost use Rattle.ghes_ack.specs.Machine.{Machine, IsState, turned, last_taken};
ghost use Rattle.erst_bridge.specs.declared.events.BridgeEvent.TheVariants.{Line as IsLine};
ghost use Rattle.erst_bridge.specs.BridgedRecord.{bridged};
ghost use Rattle.erst_bridge.specs.Bridges.{BridgeState, HoldsNone, after_reader};
ghost use Rattle.erst_bridge.specs.InStep.{IsInStep, IsInOrder};

/// The record of a block is one whole record, of 200 bytes more than the block, under its identifier; its section's body is the block.
pub fn a_bridged_block_is_a_record()
    ensures whole { (block : List ℕ) (id : ℕ) → id < 2 ^ 64 → length block ≤ 4096 → IsWhole (bridged block id) }
    ensures size { (block : List ℕ) (id : ℕ) → id < 2 ^ 64 → length (bridged block id) ≡ 200 + length block }
    ensures name { (block : List ℕ) (id : ℕ) → id < 2 ^ 64 → number_at (bridged block id) 96 8 ≡ id }
    ensures body { (block : List ℕ) (id : ℕ) → id < 2 ^ 64 → part (bridged block id) 200 (length block) ≡ block }
{}

/// A bridge and the reader whose turns it makes stay in step: a block is held from the turn that took it until its record is stored, and
/// only then does the reader go on to acknowledge it.
pub fn a_bridge_stays_in_step()
    ensures order { (len id : ℕ) (bridge : BridgeState) (m : Machine) → IsState len m → IsInStep bridge m
        → HoldsNone id bridge → IsInOrder bridge (IsLine (turned OfReader m).0) }
    ensures stays { (len id : ℕ) (bridge : BridgeState) (m : Machine) → IsState len m → IsInStep bridge m
        → HoldsNone id bridge → (block : List ℕ) → block ≡ last_taken (turned OfReader m).1
        → IsInStep (after_reader (turned OfReader m).0 id block bridge) (turned OfReader m).1 }
{}
