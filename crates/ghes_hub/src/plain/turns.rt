// One turn of either side of a plain handover.
ghost use Rattle.ghes_ack.specs.Handovers.{over};
ghost use Rattle.ghes_hub.specs.PlainSides.{SideIsAble, SideTurns};

use crate::plain::firmware::firmware_turn;
use crate::plain::map::PlainMap;
use crate::plain::reader::reader_turn;
use apei_space::Ram;
use ghes_ack::{Blocks, Ends, Event, Side};

/// One turn of a side, which knows of the other one what the memory shows.
pub fn one_turn(
    side: Side,
    ends: Ends,
    blocks: &mut Blocks<PlainMap>,
    ram: &mut Ram,
) -> (Ends, Event)
    requires { SideIsAble side ends blocks.old ram.old }
    ensures { SideTurns side ends (over blocks.old ram.old) result.1 result.0 (over blocks.new ram.new) }
{
    let Ends { firmware, reader } = ends;
    match side {
        Side::Firmware => {
            let (firmware, event) = firmware_turn(firmware, blocks, ram);
            (Ends { firmware, reader }, event)
        }
        Side::Reader => {
            let (reader, event) = reader_turn(reader, blocks, ram);
            (Ends { firmware, reader }, event)
        }
    }
}
