// The two sides of a handover as values that must be spent. They are made and spent here alone: the step from each to the next is
// made by an access of the memory in which the two sides meet.
ghost use Rattle.std.specs.Prelude.{◌≡◌, ◌+◌, ◌-◌, ◌*◌, ◌<◌, ◌≤◌, min, length, take, MatchResult, Some, None};
ghost use Rattle.base_model.specs.Bytes.{part, put_at, spelled};
ghost use Rattle.ghes_ack.specs.Windows.{HasBlock, block_bytes, block_status, with_block};
ghost use Rattle.ghes_ack.specs.declared.ends.FirmwareEnd.TheVariants.{Writes};
ghost use Rattle.ghes_ack.specs.declared.ends.ReaderEnd.TheVariants.{Looks};
ghost use Rattle.ghes_ack.specs.Machine.{with_piece, with_pieces, with_status};
ghost use Rattle.ghes_ack.specs.Maps.{HasAckBits, HasWindows, IsSet, IsClear, ack_read, window, with_window, with_ack, with_clear, acknowledged, memory_started};

use crate::maps::HandoverMap;
use crate::{HasWindow, PIECE};
use apei_bytes::get_u32;
use apei_space::Ram;

/// The firmware may write the block.
pub struct MayWrite {
    made: (),
}

/// The firmware waits for the acknowledgement of a published block.
pub struct MustWait {
    made: (),
}

/// The reader waits for a block.
pub struct MustLook {
    made: (),
}

/// The reader may read the block.
pub struct MayRead {
    made: (),
}

/// The reader has cleared the block status, and has still to acknowledge.
pub struct MustAcknowledge {
    made: (),
}

/// Where the firmware stands.
pub enum FirmwareEnd {
    Writes(MayWrite),
    Waits(MustWait),
}

/// Where the reader stands.
pub enum ReaderEnd {
    Looks(MustLook),
    Reads(MayRead),
    Acknowledges(MustAcknowledge),
}

/// Where both sides stand.
pub struct Ends {
    pub firmware: FirmwareEnd,
    pub reader: ReaderEnd,
}

/// Begins a handover in a window: sets the block status to 0.
pub fn begin<M: HasWindow>(map: &M, ram: &mut Ram) -> (MayWrite, MustLook)
    requires { HasBlock (M.window_of map.now) ram.old }
    ensures { ram.new ≡ with_block (M.window_of map.now) ram.old
        (with_status (block_bytes (M.window_of map.now) ram.old) (spelled 4 0)) }
{
    map.window().show(ram, 0);
    (MayWrite { made: () }, MustLook { made: () })
}

/// Begins a handover with a register: writes the block's address, sets the acknowledge bits, and sets the block status to 0.
pub fn begin_with_register(map: &HandoverMap, ram: &mut Ram) -> (MayWrite, MustLook)
    requires { HasWindows map.now ram.old }
    ensures memory { ram.new ≡ memory_started map.now ram.old }
    ensures set { HasAckBits map.now → IsSet map.now ram.new }
{
    map.write_address(ram);
    map.set_ack(ram);
    begin(map, ram)
}

impl MayWrite {
    /// Writes the piece of 64 bytes with this number, the last one shorter, with a block status of 0.
    #[inline(always)]
    pub fn fill<M: HasWindow>(&self, map: &M, ram: &mut Ram, block: &[u8], piece: u32)
        requires block { HasBlock (M.window_of map.now) ram.old }
        requires fits { length block.now ≤ (M.window_of map.now).len }
        requires begins { 64 * piece < length block.now }
        ensures { ram.new ≡ with_block (M.window_of map.now) ram.old
            (with_piece (block_bytes (M.window_of map.now) ram.old) block.now piece) }
    {
        map.window().fill(ram, block, piece);
    }

    /// Writes so many pieces from this one on, with a block status of 0.
    #[inline(always)]
    pub fn fill_more(
        &self,
        map: &HandoverMap,
        ram: &mut Ram,
        block: &[u8],
        piece: u32,
        count: usize,
    )
        requires windows { HasWindows map.now ram.old }
        requires head { 20 ≤ length block.now }
        requires fits { length block.now ≤ map.now.len }
        requires begins { 64 * piece < length block.now }
        requires some { 0 < count }
        requires few { 64 * count < length block.now - 64 * piece + 64 }
        ensures { ram.new ≡ with_window map.now ram.old (with_pieces (window map.now ram.old) block.now piece count) }
    {
        map.window().fill_more(ram, block, piece, count);
    }

    /// Clears the acknowledge bits, and then shows the block by its block status.
    pub fn publish(self, map: &HandoverMap, ram: &mut Ram, block: &[u8]) -> MustWait
        requires windows { HasWindows map.now ram.old }
        requires head { 20 ≤ length block.now }
        ensures memory { ram.new ≡ with_window map.now
            (with_ack map.now ram.old (with_clear map.now (ack_read map.now ram.old)))
            (with_status (window map.now ram.old) (take 4 block.now)) }
        ensures clear { IsClear map.now ram.new }
    {
        let MayWrite { made } = self;
        map.publish(ram, block);
        MustWait { made }
    }

    /// Shows the block by its block status, and writes nothing else.
    #[inline]
    pub fn show<M: HasWindow>(self, map: &M, ram: &mut Ram, block: &[u8]) -> MustWait
        requires block { HasBlock (M.window_of map.now) ram.old }
        requires head { 20 ≤ length block.now }
        ensures { ram.new ≡ with_block (M.window_of map.now) ram.old
            (with_status (block_bytes (M.window_of map.now) ram.old) (take 4 block.now)) }
    {
        let MayWrite { made } = self;
        map.window().show(ram, get_u32(block, 0));
        MustWait { made }
    }

    /// Spends it.
    pub fn end(self) {
        let MayWrite { made: () } = self;
    }
}

impl MustWait {
    /// The block is the firmware's again exactly where the acknowledge bits are set.
    pub fn poll(self, map: &HandoverMap, ram: &Ram) -> Result<MayWrite, MustWait>
        ensures { MatchResult result (λ _. IsSet map.now ram.now) (λ _. ¬ IsSet map.now ram.now) }
    {
        if map.is_acknowledged(ram) {
            Ok(self.over())
        } else {
            Err(self)
        }
    }

    /// The block is the firmware's again exactly where the block status is 0.
    #[inline]
    pub fn poll_status<M: HasWindow>(self, map: &M, ram: &Ram) -> Result<MayWrite, MustWait>
        requires { HasBlock (M.window_of map.now) ram.now }
        ensures { MatchResult result (λ _. block_status (M.window_of map.now) ram.now ≡ 0)
            (λ _. 0 < block_status (M.window_of map.now) ram.now) }
    {
        if map.window().status_word(ram) == 0 {
            Ok(self.over())
        } else {
            Err(self)
        }
    }

    fn over(self) -> MayWrite {
        let MustWait { made } = self;
        MayWrite { made }
    }

    /// Spends it.
    pub fn end(self) {
        let MustWait { made: () } = self;
    }
}

impl MustLook {
    /// There is a block exactly where the block status isn't 0.
    #[inline]
    pub fn poll<M: HasWindow>(self, map: &M, ram: &Ram) -> Result<MayRead, MustLook>
        requires { HasBlock (M.window_of map.now) ram.now }
        ensures { MatchResult result (λ _. 0 < block_status (M.window_of map.now) ram.now)
            (λ _. block_status (M.window_of map.now) ram.now ≡ 0) }
    {
        if map.window().status_word(ram) == 0 {
            return Err(self);
        }
        let MustLook { made } = self;
        Ok(MayRead { made })
    }

    /// Spends it.
    pub fn end(self) {
        let MustLook { made: () } = self;
    }
}

impl MayRead {
    /// Copies bytes of the block from this one on, as many as `out` has.
    #[inline]
    pub fn copy<M: HasWindow>(&self, map: &M, ram: &Ram, at: u64, out: &mut [u8])
        requires block { HasBlock (M.window_of map.now) ram.now }
        requires inside { at + length out.old ≤ (M.window_of map.now).len }
        ensures { out.new ≡ part (block_bytes (M.window_of map.now) ram.now) at (length out.old) }
    {
        map.window().read_part(ram, at, out);
    }

    /// Copies a piece of the window to its place.
    #[inline]
    pub fn copy_piece<M: HasWindow>(&self, map: &M, ram: &Ram, piece: u32, bytes: &mut [u8])
        requires block { HasBlock (M.window_of map.now) ram.now }
        requires begins { 64 * piece < length bytes.old }
        requires fits { length bytes.old ≤ (M.window_of map.now).len }
        ensures { bytes.new ≡ put_at bytes.old (64 * piece) (part (block_bytes (M.window_of map.now) ram.now)
            (64 * piece) (min 64 (length bytes.old - 64 * piece))) }
    {
        let at = PIECE * piece as usize;
        let end = bytes.len().min(at + PIECE);
        self.copy(map, ram, at as u64, &mut bytes[at..end]);
    }

    /// Sets the block status to 0.
    #[inline]
    pub fn clear<M: HasWindow>(self, map: &M, ram: &mut Ram) -> MustAcknowledge
        requires { HasBlock (M.window_of map.now) ram.old }
        ensures { ram.new ≡ with_block (M.window_of map.now) ram.old
            (with_status (block_bytes (M.window_of map.now) ram.old) (spelled 4 0)) }
    {
        let MayRead { made } = self;
        map.window().show(ram, 0);
        MustAcknowledge { made }
    }

    /// Sets the block status to 0, which is the acknowledgement where there is no register.
    #[inline]
    pub fn release<M: HasWindow>(self, map: &M, ram: &mut Ram) -> MustLook
        requires { HasBlock (M.window_of map.now) ram.old }
        ensures { ram.new ≡ with_block (M.window_of map.now) ram.old
            (with_status (block_bytes (M.window_of map.now) ram.old) (spelled 4 0)) }
    {
        let MustAcknowledge { made } = self.clear(map, ram);
        MustLook { made }
    }

    /// Spends it.
    pub fn end(self) {
        let MayRead { made: () } = self;
    }
}

impl MustAcknowledge {
    /// Acknowledges: writes `(read & preserve) | write` to the acknowledge register.
    pub fn acknowledge(self, map: &HandoverMap, ram: &mut Ram) -> MustLook
        requires { HasWindows map.now ram.old }
        ensures memory { ram.new ≡ with_ack map.now ram.old (acknowledged map.now (ack_read map.now ram.old)) }
        ensures set { HasAckBits map.now → IsSet map.now ram.new }
    {
        let MustAcknowledge { made } = self;
        map.acknowledge(ram);
        MustLook { made }
    }

    /// Spends it.
    pub fn end(self) {
        let MustAcknowledge { made: () } = self;
    }
}

impl Ends {
    /// Where both sides stand at the start.
    #[inline]
    pub fn at_start(sides: (MayWrite, MustLook)) -> Ends
        ensures { result ≡ record { firmware = Writes sides.0; reader = Looks sides.1 } }
    {
        let (write, look) = sides;
        Ends {
            firmware: FirmwareEnd::Writes(write),
            reader: ReaderEnd::Looks(look),
        }
    }

    /// Puts the sides to their empty place.
    #[inline]
    pub fn put_back(self, place: &mut Option<Ends>)
        requires { place.old ≡ None }
        ensures { place.new ≡ Some self }
    {
        match place.replace(self) {
            None => {}
            Some(_old) => unreachable!(),
        }
    }

    /// Spends both sides.
    pub fn end(self) {
        let Ends { firmware, reader } = self;
        match firmware {
            FirmwareEnd::Writes(end) => end.end(),
            FirmwareEnd::Waits(end) => end.end(),
        }
        match reader {
            ReaderEnd::Looks(end) => end.end(),
            ReaderEnd::Reads(end) => end.end(),
            ReaderEnd::Acknowledges(end) => end.end(),
        }
    }
}
