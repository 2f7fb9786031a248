// The reader's turns, by its own end of the handover, the block that it copies and the memory alone.
ghost use Rattle.std.specs.Prelude.{◌≡◌, ◌∷◌, [], ◌++◌, ◌+◌, ◌-◌, ◌*◌, ◌<◌, ◌≤◌, min, length, take, drop, replicate, MatchBool};
ghost use Rattle.base_model.specs.Bytes.{part, put_at};
ghost use Rattle.ghes_ack.specs.declared.events.Event.TheVariants.{Copied as OfCopied, Took as OfTook};
ghost use Rattle.ghes_ack.specs.declared.ends.ReaderEnd.TheVariants.{Looks as OfLooks, Reads as OfReads};
ghost use Rattle.ghes_ack.specs.Machine.{Reading};
ghost use Rattle.ghes_ack.specs.Maps.{HasWindows, window, window_of};
ghost use Rattle.ghes_ack.specs.Handovers.{over};
ghost use Rattle.ghes_ack.specs.Sides.{IsFar, state_of};
ghost use Rattle.ghes_ack.specs.OwnTurns.{IsAble, IsCount, GoesOn, ReaderMakes, ReaderRuns};
ghost use Rattle.ghes_ack.specs.WindowQueues.{HasRoom};

use crate::PIECE;
use crate::blocks::Blocks;
use crate::ends::{MayRead, MustLook, ReaderEnd};
use crate::events::{Event, note};
use crate::maps::HandoverMap;
use apei_space::Ram;

/// The next turns of the reader: all that copy pieces, or else one. It answers how many, and writes their events.
pub fn reader_run(
    end: ReaderEnd,
    blocks: &mut Blocks,
    events: &mut [Event],
    ram: &mut Ram,
) -> (ReaderEnd, usize)
    requires able { IsAble blocks.old ram.old }
    requires far { IsFar end blocks.old }
    requires some { 0 < length events.old }
    ensures room { HasRoom window_of 0 blocks.new }
    ensures far { GoesOn end result.0 blocks.new }
    ensures count { IsCount result.1 (length events.old) }
    ensures runs { ReaderRuns end (over blocks.old ram.old) (take result.1 events.new) result.0
        (over blocks.new ram.new) }
{
    match end {
        ReaderEnd::Looks(look) => (look_for_block(look, blocks, events, ram), 1),
        ReaderEnd::Reads(read) => copy_or_clear(read, blocks, events, ram),
        ReaderEnd::Acknowledges(end) => {
            let look = end.acknowledge(&blocks.map, ram);
            note(events, 1, Event::Ack);
            (ReaderEnd::Looks(look), 1)
        }
    }
}

/// Looks for a block, none of which is copied yet.
fn look_for_block(look: MustLook, blocks: &mut Blocks, events: &mut [Event], ram: &Ram) -> ReaderEnd
    requires able { IsAble blocks.old ram.now }
    requires some { 0 < length events.old }
    ensures room { HasRoom window_of 0 blocks.new }
    ensures runs { ReaderRuns (OfLooks look) (over blocks.old ram.now) (take 1 events.new) result
        (over blocks.new ram.now) }
{
    match look.poll(&blocks.map, ram) {
        Ok(read) => {
            blocks.copied = 0;
            note(events, 1, Event::Found);
            ReaderEnd::Reads(read)
        }
        Err(look) => {
            note(events, 1, Event::Nothing);
            ReaderEnd::Looks(look)
        }
    }
}

/// Copies the next pieces, or clears the block status once all are copied. The pieces go to the buffer of the block at work.
fn copy_or_clear(
    read: MayRead,
    blocks: &mut Blocks,
    events: &mut [Event],
    ram: &mut Ram,
) -> (ReaderEnd, usize)
    requires able { IsAble blocks.old ram.old }
    requires far { IsFar (OfReads read) blocks.old }
    requires some { 0 < length events.old }
    ensures room { HasRoom window_of 0 blocks.new }
    ensures far { IsFar result.0 blocks.new }
    ensures count { IsCount result.1 (length events.old) }
    ensures runs { ReaderRuns (OfReads read) (over blocks.old ram.old) (take result.1 events.new) result.0
        (over blocks.new ram.new) }
{
    let Some(mut bytes) = blocks.at_work.take() else {
        let end = read.clear(&blocks.map, ram);
        note(events, 1, Event::Clear);
        return (ReaderEnd::Acknowledges(end), 1);
    };
    let at = PIECE * (blocks.copied as usize);
    let count = (bytes.len() - at).div_ceil(PIECE).min(events.len());
    copy_pieces(&read, &blocks.map, ram, blocks.copied, count, &mut bytes);
    blocks.copied += count as u32;
    if at + PIECE * count < bytes.len() {
        blocks.at_work = Some(bytes);
        note(events, count, Event::Copied);
        return (ReaderEnd::Reads(read), count);
    }
    blocks.take(bytes);
    note_taken(events, count);
    (ReaderEnd::Reads(read), count)
}

/// Copies the next piece of the block in place; `false` where none follows it.
pub fn copy_in_place(read: &MayRead, blocks: &mut Blocks, ram: &Ram) -> bool
    requires able { IsAble blocks.old ram.now }
    requires far { IsFar (OfReads read.now) blocks.old }
    ensures room { HasRoom window_of 0 blocks.new }
    ensures far { IsFar (OfReads read.now) blocks.new }
    ensures makes { MatchBool result
        (ReaderMakes (state_of Reading blocks.old) ram.now (OfCopied ∷ []) (state_of Reading blocks.new) ram.now)
        (blocks.new ≡ blocks.old) }
{
    let Some(bytes) = &mut blocks.at_work else {
        return false;
    };
    if PIECE * (blocks.copied as usize) + PIECE >= bytes.len() {
        return false;
    }
    read.copy_piece(&blocks.map, ram, blocks.copied, bytes);
    blocks.copied += 1;
    true
}

/// Copies so many pieces of the window to their place.
fn copy_pieces(
    read: &MayRead,
    map: &HandoverMap,
    ram: &Ram,
    piece: u32,
    count: usize,
    bytes: &mut [u8],
)
    requires windows { HasWindows map.now ram.now }
    requires begins { 64 * piece < length bytes.old }
    requires few { 64 * count < length bytes.old - 64 * piece + 64 }
    requires fits { length bytes.old ≤ map.now.len }
    ensures { bytes.new ≡ put_at bytes.old (64 * piece) (part (window map.now ram.now) (64 * piece)
        (min (64 * count) (length bytes.old - 64 * piece))) }
{
    let at = PIECE * piece as usize;
    let end = bytes.len().min(at + PIECE * count);
    read.copy(map, ram, at as u64, &mut bytes[at..end]);
}

/// Writes the events of copies, the last of which takes the block.
fn note_taken(events: &mut [Event], count: usize)
    requires some { 0 < count }
    requires few { count ≤ length events.old }
    ensures { events.new ≡ replicate (count - 1) OfCopied ++ OfTook ∷ drop count events.old }
{
    events[..count].fill(Event::Copied);
    events[count - 1] = Event::Took;
}
