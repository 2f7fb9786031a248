// The firmware's turns of a plain handover, by its own end, its blocks and the memory alone.
ghost use Rattle.std.specs.Prelude.{◌<◌, All};
ghost use Rattle.ghes_ack.specs.Machine.{Filling, Fits};
ghost use Rattle.ghes_ack.specs.Windows.{HasAddressed};
ghost use Rattle.ghes_ack.specs.WindowQueues.{held_of};
ghost use Rattle.ghes_ack.specs.Handovers.{over};
ghost use Rattle.ghes_hub.specs.PlainSides.{IsSound, FindsClear, FirmwareMakes, FirmwareIsAble, FirmwareTurns};
ghost use Rattle.ghes_ack.specs.OwnTurns.{firmware_at};
ghost use Rattle.ghes_ack.specs.Sides.{state_of};

use crate::plain::map::PlainMap;
use apei_space::Ram;
use ghes_ack::{Blocks, Event, FirmwareEnd, MayWrite, MustWait, PIECE};

/// One turn of the firmware.
pub fn firmware_turn(
    end: FirmwareEnd,
    blocks: &mut Blocks<PlainMap>,
    ram: &mut Ram,
) -> (FirmwareEnd, Event)
    requires { FirmwareIsAble end blocks.old ram.old }
    ensures { FirmwareTurns end (over blocks.old ram.old) result.1 result.0 (over blocks.new ram.new) }
{
    match end {
        FirmwareEnd::Writes(write) => fill_or_publish(write, blocks, ram),
        FirmwareEnd::Waits(wait) => look_for_clear(wait, &blocks.map, ram),
    }
}

/// Looks whether the block was cleared.
fn look_for_clear(wait: MustWait, map: &PlainMap, ram: &Ram) -> (FirmwareEnd, Event)
    requires { HasAddressed map.now.status map.now.window ram.now }
    ensures { FindsClear map.now ram.now result.1 result.0 }
{
    match wait.poll_status(map, ram) {
        Ok(write) => (FirmwareEnd::Writes(write), Event::Free),
        Err(wait) => (FirmwareEnd::Waits(wait), Event::Wait),
    }
}

/// Writes the next piece, or publishes a block all of whose pieces are written.
fn fill_or_publish(
    write: MayWrite,
    blocks: &mut Blocks<PlainMap>,
    ram: &mut Ram,
) -> (FirmwareEnd, Event)
    requires sound { IsSound Filling blocks.old }
    requires windows { HasAddressed blocks.old.map.status blocks.old.map.window ram.old }
    requires fits { All (Fits blocks.old.map.window.len) (held_of blocks.old) }
    ensures sound { IsSound (firmware_at result.0) blocks.new }
    ensures makes { FirmwareMakes (state_of Filling blocks.old) ram.old result.1
        (state_of (firmware_at result.0) blocks.new) ram.new }
{
    let Some(block) = blocks.next() else {
        return (FirmwareEnd::Writes(write), Event::Idle);
    };
    if PIECE * (blocks.filled as usize) < block.len() {
        write.fill(&blocks.map, ram, &block, blocks.filled);
        blocks.filled += 1;
        blocks.at_work = Some(block);
        return (FirmwareEnd::Writes(write), Event::Fill);
    }
    let wait = write.show(&blocks.map, ram, &block);
    blocks.filled = 0;
    blocks.at_work = Some(block);
    (FirmwareEnd::Waits(wait), Event::Publish)
}
