// The window of an error status block in memory.
ghost use Rattle.std.specs.Prelude.{◌≡◌, ◌+◌, ◌-◌, ◌*◌, ◌<◌, ◌≤◌, length, min};
ghost use Rattle.base_model.specs.Bytes.{part, put_at, spelled};
ghost use Rattle.ghes_ack.specs.Pieces.{with_piece, with_pieces, with_status, read_over};
ghost use Rattle.ghes_ack.specs.Windows.{HasBlock, block_bytes, block_status, with_block};

use crate::pieces::{PIECE, copy_hidden};
use apei_space::{Ram, Space};
use apei_tables::{Place, Width};

/// An error status block is handed over in the `len` bytes of memory at `block`.
#[derive(Clone, Copy, Debug, PartialEq, Eq)]
pub struct BlockWindow {
    pub block: u64,
    pub len: u32,
}

impl BlockWindow {
    /// The block status.
    #[inline]
    pub fn status_word(&self, ram: &Ram) -> u64
        requires { HasBlock self.now ram.now }
        ensures { result ≡ block_status self.now ram.now }
    {
        ram.look(Place::Memory(self.block), Width::B32).unwrap_or(0)
    }

    /// Writes the block status.
    #[inline]
    pub fn show(&self, ram: &mut Ram, word: u32)
        requires { HasBlock self.now ram.old }
        ensures { ram.new ≡ with_block self.now ram.old (with_status (block_bytes self.now ram.old) (spelled 4 word)) }
    {
        let _ = ram.write(Place::Memory(self.block), Width::B32, u64::from(word));
    }

    /// Writes bytes into the window.
    #[inline]
    fn write_part(&self, ram: &mut Ram, at: u64, bytes: &[u8])
        requires block { HasBlock self.now ram.old }
        requires some { 0 < length bytes.now }
        requires inside { at + length bytes.now ≤ self.now.len }
        ensures { ram.new ≡ with_block self.now ram.old (put_at (block_bytes self.now ram.old) at bytes.now) }
    {
        let _ = ram.write_bytes(self.block + at, bytes);
    }

    /// Writes the piece of 64 bytes with this number, the last one shorter, with a block status of 0.
    #[inline(always)]
    pub fn fill(&self, ram: &mut Ram, block: &[u8], piece: u32)
        requires block { HasBlock self.now ram.old }
        requires fits { length block.now ≤ self.now.len }
        requires begins { 64 * piece < length block.now }
        ensures { ram.new ≡ with_block self.now ram.old (with_piece (block_bytes self.now ram.old) block.now piece) }
    {
        let at = PIECE * piece as usize;
        let end = block.len().min(at + PIECE);
        if piece == 0 {
            self.write_first(ram, block, &mut [0; PIECE][..end]);
        } else {
            self.write_part(ram, at as u64, &block[at..end]);
        }
    }

    /// Writes the first piece of a block, its status word as 0. The buffer is as long as the piece.
    #[inline]
    fn write_first(&self, ram: &mut Ram, block: &[u8], buffer: &mut [u8])
        requires block { HasBlock self.now ram.old }
        requires fits { length block.now ≤ self.now.len }
        requires some { 0 < length block.now }
        requires piece { length buffer.old ≡ min (length block.now) 64 }
        ensures { ram.new ≡ with_block self.now ram.old (with_piece (block_bytes self.now ram.old) block.now 0) }
    {
        copy_hidden(block, buffer);
        self.write_part(ram, 0, buffer);
    }

    /// Writes so many pieces from this one on, with a block status of 0.
    #[inline(always)]
    pub fn fill_more(&self, ram: &mut Ram, block: &[u8], piece: u32, count: usize)
        requires block { HasBlock self.now ram.old }
        requires head { 20 ≤ length block.now }
        requires fits { length block.now ≤ self.now.len }
        requires begins { 64 * piece < length block.now }
        requires some { 0 < count }
        requires few { 64 * count < length block.now - 64 * piece + 64 }
        ensures { ram.new ≡ with_block self.now ram.old (with_pieces (block_bytes self.now ram.old) block.now piece
            count) }
    {
        let at = PIECE * piece as usize;
        let end = block.len().min(at + PIECE * count);
        if piece == 0 {
            self.show(ram, 0);
            self.write_part(ram, 4, &block[4..end]);
        } else {
            self.write_part(ram, at as u64, &block[at..end]);
        }
    }

    /// Reads bytes of the window.
    #[inline]
    pub fn read_part(&self, ram: &Ram, at: u64, out: &mut [u8])
        requires block { HasBlock self.now ram.now }
        requires inside { at + length out.old ≤ self.now.len }
        ensures { out.new ≡ part (block_bytes self.now ram.now) at (length out.old) }
    {
        let _ = ram.look_bytes(self.block + at, out);
    }
}
