// The firmware's turns, by its own end of the handover, its blocks and the memory alone.
ghost use Rattle.std.specs.Prelude.{◌≡◌, ◌∷◌, [], ◌<◌, length, take, MatchBool};
ghost use Rattle.ghes_ack.specs.declared.events.Event.TheVariants.{Fill as OfFill};
ghost use Rattle.ghes_ack.specs.declared.ends.FirmwareEnd.TheVariants.{Waits as OfWaits};
ghost use Rattle.ghes_ack.specs.Machine.{Filling};
ghost use Rattle.ghes_ack.specs.Handovers.{over};
ghost use Rattle.ghes_ack.specs.Sides.{state_of};
ghost use Rattle.ghes_ack.specs.OwnTurns.{IsAble, IsCount, FirmwareMakes, FirmwareRuns};
ghost use Rattle.ghes_ack.specs.Maps.{window_of};
ghost use Rattle.ghes_ack.specs.WindowQueues.{HasRoom};

use crate::PIECE;
use crate::blocks::Blocks;
use crate::ends::{FirmwareEnd, MayWrite, MustWait};
use crate::events::{Event, note};
use apei_space::Ram;

/// The next turns of the firmware: all that fill pieces of one block, or else one. It answers how many, and writes their events.
pub fn firmware_run(
    end: FirmwareEnd,
    blocks: &mut Blocks,
    events: &mut [Event],
    ram: &mut Ram,
) -> (FirmwareEnd, usize)
    requires able { IsAble blocks.old ram.old }
    requires some { 0 < length events.old }
    ensures room { HasRoom window_of 0 blocks.new }
    ensures count { IsCount result.1 (length events.old) }
    ensures runs { FirmwareRuns end (over blocks.old ram.old) (take result.1 events.new) result.0
        (over blocks.new ram.new) }
{
    match end {
        FirmwareEnd::Waits(wait) => (look_for_ack(wait, blocks, events, ram), 1),
        FirmwareEnd::Writes(write) => {
            let Some(block) = blocks.next() else {
                note(events, 1, Event::Idle);
                return (FirmwareEnd::Writes(write), 1);
            };
            let at = PIECE * (blocks.filled as usize);
            if at < block.len() {
                let count = (block.len() - at).div_ceil(PIECE).min(events.len());
                write.fill_more(&blocks.map, ram, &block, blocks.filled, count);
                blocks.filled += count as u32;
                blocks.at_work = Some(block);
                note(events, count, Event::Fill);
                return (FirmwareEnd::Writes(write), count);
            }
            let wait = write.publish(&blocks.map, ram, &block);
            blocks.filled = 0;
            blocks.at_work = Some(block);
            note(events, 1, Event::Publish);
            (FirmwareEnd::Waits(wait), 1)
        }
    }
}

/// Looks whether the block was acknowledged.
fn look_for_ack(wait: MustWait, blocks: &Blocks, events: &mut [Event], ram: &Ram) -> FirmwareEnd
    requires { 0 < length events.old }
    ensures { FirmwareRuns (OfWaits wait) (over blocks.now ram.now) (take 1 events.new) result
        (over blocks.now ram.now) }
{
    match wait.poll(&blocks.map, ram) {
        Ok(write) => {
            note(events, 1, Event::Free);
            FirmwareEnd::Writes(write)
        }
        Err(wait) => {
            note(events, 1, Event::Wait);
            FirmwareEnd::Waits(wait)
        }
    }
}

/// Writes the next piece of the block at work in place; `false` where there is none of 64 bytes.
pub fn fill_in_place(write: &MayWrite, blocks: &mut Blocks, ram: &mut Ram) -> bool
    requires { IsAble blocks.old ram.old }
    ensures room { HasRoom window_of 0 blocks.new }
    ensures makes { MatchBool result
        (FirmwareMakes (state_of Filling blocks.old) ram.old (OfFill ∷ []) (state_of Filling blocks.new) ram.new)
        ((blocks.new ≡ blocks.old) × (ram.new ≡ ram.old)) }
{
    let Some(block) = &blocks.at_work else {
        return false;
    };
    if block.len() < PIECE * (blocks.filled as usize) + PIECE {
        return false;
    }
    write.fill(&blocks.map, ram, block, blocks.filled);
    blocks.filled += 1;
    true
}
