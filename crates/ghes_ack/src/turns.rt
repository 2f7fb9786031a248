// The turns of both sides.
ghost use Rattle.std.specs.Prelude.{◌≡◌, ◌∷◌, [], ◌<◌, length, take, MatchOption};
ghost use Rattle.ghes_ack.specs.Machine.{Machine};
ghost use Rattle.ghes_ack.specs.Handovers.{StandsFor, over};
ghost use Rattle.ghes_ack.specs.Sides.{Stands, MakesTurns, IsConsistent, handover_of};
ghost use Rattle.ghes_ack.specs.OwnTurns.{IsCount, SideIsAble, SideRuns};
ghost use Rattle.ghes_ack.specs.Maps.{window_of};
ghost use Rattle.ghes_ack.specs.WindowQueues.{HasRoom};

use crate::blocks::{Blocks, copy_in_place, fill_in_place, firmware_run, reader_run};
use crate::ends::{Ends, FirmwareEnd, ReaderEnd};
use crate::events::{Event, Side};
use apei_space::Ram;

/// A turn of a side that moves one piece and leaves both sides where they are: the firmware fills a piece of the block at work,
/// or the reader copies one that is not the last. `None` where the turn is another one; nothing is done then. A side knows of the
/// other one what the memory shows.
pub fn piece_turn(side: Side, ends: &Ends, blocks: &mut Blocks, ram: &mut Ram) -> Option<Event>
    requires { SideIsAble side ends.now blocks.old ram.old }
    ensures room { HasRoom window_of 0 blocks.new }
    ensures runs { MatchOption result
        ((blocks.new ≡ blocks.old) × (ram.new ≡ ram.old))
        (λ event. SideRuns side ends.now (over blocks.old ram.old) (event ∷ []) ends.now (over blocks.new ram.new)) }
{
    match (side, &ends.firmware, &ends.reader) {
        (Side::Firmware, FirmwareEnd::Writes(write), _) => {
            if fill_in_place(write, blocks, ram) {
                Some(Event::Fill)
            } else {
                None
            }
        }
        (Side::Reader, _, ReaderEnd::Reads(read)) => {
            if copy_in_place(read, blocks, ram) {
                Some(Event::Copied)
            } else {
                None
            }
        }
        _ => None,
    }
}

/// As many turns of a side as there are places for their events.
pub fn all_turns(
    side: Side,
    ends: Ends,
    blocks: &mut Blocks,
    events: &mut [Event],
    ram: &mut Ram,
) -> Ends
    requires consistent { IsConsistent ends blocks.old }
    requires stands { Stands (handover_of ends blocks.old) ram.old }
    ensures consistent { IsConsistent result blocks.new }
    ensures turns { (m : Machine) → StandsFor (handover_of ends blocks.old) ram.old m
        → MakesTurns side events.new (over (handover_of ends blocks.old) ram.old)
        (over (handover_of result blocks.new) ram.new) m }
{
    let mut stand = ends;
    let mut done: usize = 0;
    while done < events.len() {
        let (next, made) = run_of(side, stand, blocks, &mut events[done..], ram);
        stand = next;
        done += made;
    }
    stand
}

/// The next turns of a side, which knows of the other one what the memory shows: all that fill or copy pieces, or else one. It
/// answers how many, and writes their events.
fn run_of(
    side: Side,
    ends: Ends,
    blocks: &mut Blocks,
    events: &mut [Event],
    ram: &mut Ram,
) -> (Ends, usize)
    requires able { SideIsAble side ends blocks.old ram.old }
    requires some { 0 < length events.old }
    ensures room { HasRoom window_of 0 blocks.new }
    ensures count { IsCount result.1 (length events.old) }
    ensures runs { SideRuns side ends (over blocks.old ram.old) (take result.1 events.new) result.0
        (over blocks.new ram.new) }
{
    let Ends { firmware, reader } = ends;
    match side {
        Side::Firmware => {
            let (firmware, made) = firmware_run(firmware, blocks, events, ram);
            (Ends { firmware, reader }, made)
        }
        Side::Reader => {
            let (reader, made) = reader_run(reader, blocks, events, ram);
            (Ends { firmware, reader }, made)
        }
    }
}
