// Laws on a bridge over two machines that are equivalent: the functions do nothing, and their clauses are the laws.
ghost use Rattle.std.specs.Prelude.{ℕ};
ghost use Rattle.erst_client.specs.Commands.{ClientState};
ghost use Rattle.erst_commands.specs.Equivalence.{IsDoneAlike};
ghost use Rattle.erst_bridge.specs.declared.events.BridgeEvent.{BridgeEvent};
ghost use Rattle.erst_bridge.specs.Bridges.{BridgeState};
ghost use Rattle.erst_bridge.specs.BridgedAlike.{BridgeTurns, EachTurnIsAlike, EachRunIsAlike, EachRunIsToldAlike};

use erst_commands::{equivalent_machines_hand_over_alike, equivalent_machines_write_alike};
use flash_model::Flash;

/// A turn of a bridge over two machines that are equivalent, by the same client and with the same budget, over flashes that fail nothing: the
/// same event, the same bridge behind it, as many steps left, and machines that are equivalent.
pub fn equivalent_machines_bridge_alike<F: Flash>()
    ensures { F.tells → (client : ClientState) (bridge : BridgeState) (budget : ℕ)
        → IsDoneAlike {A = BridgeEvent × BridgeState} (BridgeTurns F.tells client budget bridge) }
{
    equivalent_machines_write_alike::<F>();
    equivalent_machines_hand_over_alike();
}

/// So is a turn of the firmware or of the bridge, whichever it was.
pub fn equivalent_machines_turn_alike<F: Flash>()
    ensures { F.tells → (client : ClientState) (bridge : BridgeState) (budget : ℕ)
        → EachTurnIsAlike F.tells client bridge budget }
{
    equivalent_machines_bridge_alike::<F>();
    equivalent_machines_hand_over_alike();
}

/// So are turns of the same sides, one after another; and what is told of them is the same, with the flash changes behind each.
pub fn equivalent_machines_make_turns_alike<F: Flash>()
    ensures turns { F.tells → (client : ClientState) (bridge : BridgeState) (budget : ℕ)
        → EachRunIsAlike F.tells client bridge budget }
    ensures made { F.tells → (client : ClientState) (bridge : BridgeState) (budget : ℕ)
        → EachRunIsToldAlike F.tells client bridge budget }
{
    equivalent_machines_turn_alike::<F>();
}
