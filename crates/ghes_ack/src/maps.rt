// The windows of a handover in memory.
ghost use Rattle.std.specs.Prelude.{◌≡◌, ◌*◌, ◌%◌, ◌^◌, ◌<◌, ◌≤◌, length, IsTrue, ◌↔◌, bit_and, bit_or};
ghost use Rattle.base_model.specs.Bytes.{number_at};
ghost use Rattle.apei_tables.specs.Access.{bits};
ghost use Rattle.ghes_ack.specs.Maps.{HasAckBits, HasWindows, IsSet, ack_mask, ack_read, with_ack, with_address, acknowledged};
ghost use Rattle.ghes_ack.specs.Publications.{ClearsThenShows};

use crate::{BlockWindow, HasWindow};
use apei_bytes::get_u32;
use apei_space::{Ram, Space};
use apei_tables::{Place, Register, Width};

/// Where the two sides meet (ACPI 6.4, 18.3.2.8): the 8 bytes at `status` hold the block's address, the register `ack`
/// acknowledges a block by its bits `write` and keeps its bits `preserve`, and the block's window has `len` bytes at `block`.
/// Both masks are moved up by the register's bit offset.
#[derive(Clone, Copy, Debug, PartialEq, Eq)]
pub struct HandoverMap {
    pub status: u64,
    pub ack: Register,
    pub preserve: u64,
    pub write: u64,
    pub block: u64,
    pub len: u32,
}

/// The bits of a mask moved up by a bit offset; those past bit 63 are lost.
fn moved_up(mask: u64, offset: u8) -> u64
    ensures { result ≡ mask * 2 ^ offset % 2 ^ 64 }
{
    if offset < 64 { mask << offset } else { 0 }
}

impl HasWindow for HandoverMap {
    ghost window_of = { λ map. record { block = map.block; len = map.len } };

    #[inline(always)]
    fn window(&self) -> BlockWindow {
        BlockWindow {
            block: self.block,
            len: self.len,
        }
    }
}

impl HandoverMap {
    /// The acknowledge bits in an access of the register.
    fn ack_mask(&self) -> u64
        ensures { result ≡ ack_mask self.now }
    {
        moved_up(self.write, self.ack.offset)
    }

    /// The bits that an acknowledgement keeps.
    fn kept_mask(&self) -> u64
        ensures { result ≡ self.now.preserve * 2 ^ self.now.ack.offset % 2 ^ 64 }
    {
        moved_up(self.preserve, self.ack.offset)
    }

    fn read_ack(&self, ram: &Ram) -> u64
        ensures value { result ≡ ack_read self.now ram.now }
        ensures small { result < 2 ^ bits self.now.ack.access }
    {
        ram.look(self.ack.place, self.ack.access).unwrap_or(0)
    }

    fn write_ack(&self, ram: &mut Ram, value: u64)
        ensures { ram.new ≡ with_ack self.now ram.old value }
    {
        let _ = ram.write(self.ack.place, self.ack.access, value);
    }

    /// Keeps the bits `keep` of the acknowledge register's access, and sets the bits `set`.
    fn change_ack(&self, ram: &mut Ram, keep: u64, set: u64)
        ensures memory { ram.new ≡ with_ack self.now ram.old (bit_or (bit_and (ack_read self.now ram.old) keep) set) }
        ensures small { ack_read self.now ram.old < 2 ^ bits self.now.ack.access }
    {
        let _ = ram.change(self.ack.place, self.ack.access, keep, set);
    }

    /// Writes the block's address.
    pub(crate) fn write_address(&self, ram: &mut Ram)
        ensures { ram.new ≡ with_address self.now ram.old }
    {
        let _ = ram.write(Place::Memory(self.status), Width::B64, self.block);
    }

    /// Whether the acknowledge bits are set.
    pub(crate) fn is_acknowledged(&self, ram: &Ram) -> bool
        ensures { IsTrue result ↔ IsSet self.now ram.now }
    {
        let mask = self.ack_mask();
        self.read_ack(ram) & mask == mask
    }

    /// Sets the acknowledge bits.
    pub(crate) fn set_ack(&self, ram: &mut Ram)
        requires { HasWindows self.now ram.old }
        ensures memory { ram.new ≡ with_ack self.now ram.old (bit_or (ack_read self.now ram.old) (ack_mask self.now)) }
        ensures set { HasAckBits self.now → IsSet self.now ram.new }
    {
        let value = self.read_ack(ram) | self.ack_mask();
        self.write_ack(ram, value);
    }

    /// Acknowledges.
    pub(crate) fn acknowledge(&self, ram: &mut Ram)
        requires { HasWindows self.now ram.old }
        ensures memory { ram.new ≡ with_ack self.now ram.old (acknowledged self.now (ack_read self.now ram.old)) }
        ensures set { HasAckBits self.now → IsSet self.now ram.new }
    {
        self.change_ack(ram, self.kept_mask(), self.ack_mask());
    }

    /// Clears the acknowledge bits, and only then writes the block status of a block, in any space: so a reader that sees the
    /// block never finds the acknowledgement of the one before it.
    pub(crate) fn publish<S: Space>(&self, space: &mut S, block: &[u8])
        requires { 20 ≤ length block.now }
        ensures { ClearsThenShows S.allows self.now (number_at block.now 0 4) (S.state space.old) (S.state space.new) }
    {
        let word = get_u32(block, 0);
        let value = space.read(self.ack.place, self.ack.access).unwrap_or(0);
        let _ = space.write(self.ack.place, self.ack.access, value & !self.ack_mask());
        let _ = space.write(Place::Memory(self.block), Width::B32, u64::from(word));
    }
}
