// The reader's turns of a plain handover, by its own end, the block that it copies and the memory alone.
ghost use Rattle.std.specs.Prelude.{◌*◌, ◌<◌, ◌≤◌, length, IfSome};
ghost use Rattle.ghes_ack.specs.Machine.{Reading};
ghost use Rattle.ghes_ack.specs.Windows.{HasAddressed};
ghost use Rattle.ghes_ack.specs.Handovers.{over};
ghost use Rattle.ghes_hub.specs.PlainSides.{IsSound, FindsBlock, ReaderMakes, ReaderIsAble, ReaderTurns};
ghost use Rattle.ghes_ack.specs.OwnTurns.{reader_at};
ghost use Rattle.ghes_ack.specs.Sides.{state_of};

use crate::plain::map::PlainMap;
use apei_space::Ram;
use ghes_ack::{Blocks, Event, MayRead, MustLook, PIECE, ReaderEnd};

/// One turn of the reader.
pub fn reader_turn(
    end: ReaderEnd,
    blocks: &mut Blocks<PlainMap>,
    ram: &mut Ram,
) -> (ReaderEnd, Event)
    requires { ReaderIsAble end blocks.old ram.old }
    ensures { ReaderTurns end (over blocks.old ram.old) result.1 result.0 (over blocks.new ram.new) }
{
    match end {
        ReaderEnd::Looks(look) => look_for_block(look, blocks, ram),
        ReaderEnd::Reads(read) => copy_or_clear(read, blocks, ram),
        ReaderEnd::Acknowledges(_end) => unreachable!(),
    }
}

/// Looks for a block, none of which is copied yet.
fn look_for_block(look: MustLook, blocks: &mut Blocks<PlainMap>, ram: &Ram) -> (ReaderEnd, Event)
    requires { HasAddressed blocks.old.map.status blocks.old.map.window ram.now }
    ensures { FindsBlock blocks.old ram.now result.1 result.0 blocks.new }
{
    match look.poll(&blocks.map, ram) {
        Ok(read) => {
            blocks.copied = 0;
            (ReaderEnd::Reads(read), Event::Found)
        }
        Err(look) => (ReaderEnd::Looks(look), Event::Nothing),
    }
}

/// Copies the next piece of the window, or clears the block status once all are copied. The pieces go to the buffer of the block at
/// work.
fn copy_or_clear(read: MayRead, blocks: &mut Blocks<PlainMap>, ram: &mut Ram) -> (ReaderEnd, Event)
    requires sound { IsSound Reading blocks.old }
    requires windows { HasAddressed blocks.old.map.status blocks.old.map.window ram.old }
    requires fits { IfSome blocks.old.at_work (λ block. length block.items ≤ blocks.old.map.window.len) }
    ensures sound { IsSound (reader_at result.0) blocks.new }
    ensures makes { ReaderMakes (state_of Reading blocks.old) ram.old result.1
        (state_of (reader_at result.0) blocks.new) ram.new }
{
    let Some(mut bytes) = blocks.at_work.take() else {
        let look = read.release(&blocks.map, ram);
        return (ReaderEnd::Looks(look), Event::Clear);
    };
    read.copy_piece(&blocks.map, ram, blocks.copied, &mut bytes);
    blocks.copied += 1;
    if PIECE * (blocks.copied as usize) < bytes.len() {
        blocks.at_work = Some(bytes);
        return (ReaderEnd::Reads(read), Event::Copied);
    }
    blocks.take(bytes);
    (ReaderEnd::Reads(read), Event::Took)
}
