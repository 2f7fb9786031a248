// The accesses of a source, each with its bytes.
ghost use Rattle.std.specs.Prelude.{◌≡◌, ℕ, List, ◌+◌, ◌-◌, ◌*◌, ◌<◌, ◌≤◌, ◌^◌, length, take};
ghost use Rattle.base_model.specs.Bytes.{spelled};
ghost use Rattle.apei_tables.specs.Access.{bits};
ghost use Rattle.apei_tables.specs.declared.registers.Place.TheVariants.{Memory as InMemory};
ghost use Rattle.ghes_port.specs.Places.{octets};
ghost use Rattle.ghes_port.specs.Sound.{HasBits, IsPlaced};
ghost use Rattle.ghes_port.specs.Machine.{IsTold, Writes, Reads, address_told, ack_read, ack_asked, ack_set, ack_cleared, piece_at, piece_of};

use crate::accesses::Access;
use crate::maps::{AckRegister, SourceMap};
use apei_bytes::put_u32;
use apei_space::{put_number, put_part};
use apei_tables::{Place, Width};

/// The bytes of a piece.
const PIECE: usize = 64;

/// How many bytes an access moves.
pub(crate) fn size_of(access: Width) -> u32
    ensures { result ≡ octets access }
{
    match access {
        Width::B8 => 1,
        Width::B16 => 2,
        Width::B32 => 4,
        Width::B64 => 8,
    }
}

/// The largest number that an access moves.
pub(crate) fn ones(access: Width) -> u64
    ensures { result ≡ 2 ^ bits access - 1 }
{
    match access {
        Width::B8 => 0xFF,
        Width::B16 => 0xFFFF,
        Width::B32 => 0xFFFF_FFFF,
        Width::B64 => u64::MAX,
    }
}

/// A write of a number by one access.
fn write_number(place: Place, access: Width, value: u64, out: &mut [u8]) -> Access
    requires { 64 ≤ length out.old }
    ensures { IsTold (Writes place (spelled (octets access) value)) result out.old out.new }
{
    put_number(out, 0, access, value);
    Access::Write {
        place,
        size: size_of(access),
    }
}

/// A write of 0 to the block status.
pub(crate) fn hide(map: &SourceMap, out: &mut [u8]) -> Access
    requires { 64 ≤ length out.old }
    ensures { IsTold (Writes (InMemory map.now.block) (spelled 4 0)) result out.old out.new }
{
    write_number(Place::Memory(map.block), Width::B32, 0, out)
}

/// A write of the block's address.
pub(crate) fn tell_address(map: &SourceMap, out: &mut [u8]) -> Access
    requires room { 64 ≤ length out.old }
    requires placed { IsPlaced map.now }
    ensures { IsTold (address_told map.now) result out.old out.new }
{
    let register = &map.address;
    write_number(
        register.place,
        register.access,
        map.block << register.offset,
        out,
    )
}

/// A read of the acknowledge register.
pub(crate) fn read_ack(ack: &Option<AckRegister>) -> Access
    ensures { (old : List ℕ) → IsTold (ack_read ack.now) result old old }
{
    match ack {
        Some(ack) => Access::Read {
            place: ack.place,
            size: size_of(ack.access),
        },
        None => Access::Nothing,
    }
}

/// A read of what tells whether the guest has acknowledged.
pub(crate) fn ask_ack(map: &SourceMap) -> Access
    ensures { (old : List ℕ) → IsTold (ack_asked map.now map.now.ack) result old old }
{
    match &map.ack {
        Some(ack) => Access::Read {
            place: ack.place,
            size: size_of(ack.access),
        },
        None => Access::Read {
            place: Place::Memory(map.block),
            size: 4,
        },
    }
}

/// A write of the acknowledge register that sets its bits.
pub(crate) fn set_ack(ack: &Option<AckRegister>, read: u64, out: &mut [u8]) -> Access
    requires { 64 ≤ length out.old }
    ensures { IsTold (ack_set ack.now read) result out.old out.new }
{
    match ack {
        Some(ack) => write_number(ack.place, ack.access, read | ack.set, out),
        None => Access::Nothing,
    }
}

/// A write of the acknowledge register that clears its bits.
pub(crate) fn clear_ack(ack: &Option<AckRegister>, read: u64, out: &mut [u8]) -> Access
    requires room { 64 ≤ length out.old }
    requires bits { HasBits ack.now }
    ensures { IsTold (ack_cleared ack.now read) result out.old out.new }
{
    match ack {
        Some(ack) => write_number(
            ack.place,
            ack.access,
            read & (ones(ack.access) - ack.set),
            out,
        ),
        None => Access::Nothing,
    }
}

/// A write of a piece of a block.
pub(crate) fn write_piece(at: u64, block: &[u8], piece: u32, out: &mut [u8]) -> Access
    requires room { 64 ≤ length out.old }
    requires begins { piece_at piece < length block.now }
    requires below { at + length block.now < 2 ^ 64 }
    ensures { IsTold (Writes (InMemory (at + piece_at piece)) (piece_of block.now piece)) result out.old out.new }
{
    let from = 4 + PIECE * piece as usize;
    let end = block.len().min(from + PIECE);
    let bytes = &block[from..end];
    put_part(out, 0, bytes);
    Access::Write {
        place: Place::Memory(at + from as u64),
        size: bytes.len() as u32,
    }
}

/// A write of the block status of a block.
pub(crate) fn show(at: u64, block: &[u8], out: &mut [u8]) -> Access
    requires room { 64 ≤ length out.old }
    requires head { 4 ≤ length block.now }
    ensures { IsTold (Writes (InMemory at) (take 4 block.now)) result out.old out.new }
{
    put_part(out, 0, &block[..4]);
    Access::Write {
        place: Place::Memory(at),
        size: 4,
    }
}
