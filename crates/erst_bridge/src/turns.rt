// One turn, and turns one after another.
ghost use Rattle.std.specs.Prelude.{◌≡◌, ◌≢◌, ◌≤◌, length, vec_capacity};
ghost use Rattle.erst_bridge.specs.Bridges.{Off, asker_of};
ghost use Rattle.erst_bridge.specs.Turns.{bridged_machine, MakesTurn};
ghost use Rattle.erst_bridge.specs.Made.{turn_of, side_in, MakesTurns};

use crate::Bridge;
use crate::made::{MadeTurn, SideTurn};
use erst_client::Client;
use erst_interp::Budget;
use erst_machine::Machine;
use flash_model::Flash;
use ghes_ack::Side;

/// A turn of a side while a bridge is on: the firmware's, or in place of the reader's the bridge's, with a budget of its own of so many
/// steps.
pub fn turn_side<F: Flash>(
    bridge: &mut Bridge,
    client: &mut Client,
    steps: u64,
    machine: &mut Machine<F>,
    side: Side,
) -> SideTurn
    requires { bridge.old ≢ Off }
    ensures turn { MakesTurn F.tells (asker_of client.old steps) (bridged_machine bridge.old machine.old) (turn_of result)
        (bridged_machine bridge.new machine.new) }
    ensures side { side_in (turn_of result) ≡ side }
    ensures on { bridge.new ≢ Off }
    ensures client { client.new ≡ client.old }
{
    match side {
        Side::Firmware => SideTurn::Firmware(machine.turn(Side::Firmware)),
        Side::Reader => {
            let mut budget = Budget::new(steps);
            SideTurn::Bridge(bridge.turn(client, &mut budget, machine))
        }
    }
}

/// Turns of these sides, one after another, each with the number of flash changes behind it. `made` has room for them, and holds no
/// others then.
pub fn turn_sides<F: Flash>(
    bridge: &mut Bridge,
    client: &mut Client,
    steps: u64,
    machine: &mut Machine<F>,
    sides: &[Side],
    made: &mut Vec<MadeTurn>,
)
    requires on { bridge.old ≢ Off }
    requires room { length sides.now ≤ vec_capacity made.old }
    ensures turns { MakesTurns F.tells (asker_of client.old steps) (bridged_machine bridge.old machine.old) sides.now
        made.new.items (bridged_machine bridge.new machine.new) }
    ensures on { bridge.new ≢ Off }
    ensures client { client.new ≡ client.old }
{
    made.clear();
    'turning: for side in sides {
        let turn = turn_side(bridge, client, steps, machine, *side);
        let step = machine.steps();
        made.push(MadeTurn { turn, step }).unwrap();
    }
}
