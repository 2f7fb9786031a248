// A handover of error status blocks, and plain copies of as many bytes.
ghost use Rattle.std.specs.Prelude.{◌≡◌, ◌<◌, IfOk, IfSome};
ghost use Rattle.ghes_ack.specs.Maps.{HasWindows};
ghost use Rattle.ghes_ack.specs.Sides.{Stands};

use apei_bytes::put_u32;
use apei_space::{Ram, Space, Window};
use apei_tables::{Place, Register, Width};
use ghes_ack::{Event, Handover, HandoverMap, Side, SubmitError};
use std::alloc::Global;

const BLOCK: usize = 4096;

/// The turns of the firmware that fill and publish a block, those of the reader that find, copy, clear and acknowledge it.
const FIRMWARE: usize = 65;

const READER: usize = 67;

const MAP: HandoverMap = HandoverMap {
    status: 0x30_0000,
    ack: Register {
        place: Place::Memory(0x30_0008),
        access: Width::B64,
        offset: 0,
    },
    preserve: 0xffff_ffff_ffff_fffe,
    write: 1,
    block: 0x30_1000,
    len: 4096,
};

fn memory(alloc: Global) -> Option<Ram>
    ensures { IfSome result (HasWindows MAP) }
{
    let windows = [Window {
        place: Place::Memory(0x30_0000),
        len: 0x2000,
    }];
    match Ram::new(alloc, &windows) {
        Ok(ram) => Some(ram),
        Err(_) => None,
    }
}

fn begun(alloc: Global, ram: &mut Ram) -> Option<Handover>
    requires { HasWindows MAP ram.old }
    ensures { IfSome result (λ handover. Stands handover ram.new) }
{
    match Handover::new(alloc, MAP, ram) {
        Ok(handover) => Some(handover),
        Err(_) => None,
    }
}

// A block of 4,096 bytes: raw data behind no entries.
fn block() -> [u8; BLOCK] {
    let mut bytes = [0x5a; BLOCK];
    put_u32(&mut bytes, 0, 1);
    put_u32(&mut bytes, 4, 20);
    put_u32(&mut bytes, 8, BLOCK as u32 - 20);
    put_u32(&mut bytes, 12, 0);
    put_u32(&mut bytes, 16, 1);
    bytes
}

fn submit(handover: &mut Handover, _ram: &Ram, block: &[u8]) -> Result<u32, SubmitError>
    requires { Stands handover.old _ram.now }
    ensures { Stands handover.new _ram.now }
{
    match handover.submit(block) {
        Ok(waiting) => Ok(waiting),
        Err(error) => Err(error),
    }
}

fn turn(handover: &mut Handover, ram: &mut Ram, side: Side) -> Event
    requires { Stands handover.old ram.old }
    ensures { Stands handover.new ram.new }
{
    handover.turn(side, ram)
}

fn turns(handover: &mut Handover, ram: &mut Ram, side: Side, events: &mut [Event])
    requires { Stands handover.old ram.old }
    ensures { Stands handover.new ram.new }
{
    handover.turns(side, events, ram);
}

fn restart(handover: &mut Handover, ram: &mut Ram)
    requires { Stands handover.old ram.old }
    ensures { Stands handover.new ram.new }
{
    handover.restart(ram);
}

/// Hands a block of 4,096 bytes over so many times, by three calls that make all turns of both sides. It answers how many were
/// acknowledged.
pub fn hand_over(alloc: Global, times: u64) -> Option<u64> {
    let mut ram = memory(alloc)?;
    let mut handover = begun(alloc, &mut ram)?;
    let mut block = block();
    let mut filled = [Event::Idle; FIRMWARE];
    let mut read = [Event::Idle; READER];
    let mut freed = [Event::Idle; 1];
    let mut acknowledged = 0u64;
    for k in 0..times {
        block[(k % 2048) as usize + 1024] = (k % 256) as u8;
        let _ = submit(&mut handover, &ram, &block);
        turns(&mut handover, &mut ram, Side::Firmware, &mut filled);
        turns(&mut handover, &mut ram, Side::Reader, &mut read);
        if read[READER - 1] == Event::Ack {
            acknowledged = acknowledged.wrapping_add(1);
        }
        turns(&mut handover, &mut ram, Side::Firmware, &mut freed);
    }
    handover.end();
    Some(acknowledged)
}

// So many turns of a side, each by a call of its own. It answers the event of the last one.
fn turns_apart(handover: &mut Handover, ram: &mut Ram, side: Side, count: usize) -> Event
    requires { Stands handover.old ram.old }
    ensures { Stands handover.new ram.new }
{
    let mut last = Event::Idle;
    for _ in 0..count {
        last = turn(handover, ram, side);
    }
    last
}

/// The same, each turn by a call of its own.
pub fn hand_over_by_turns(alloc: Global, times: u64) -> Option<u64> {
    let mut ram = memory(alloc)?;
    let mut handover = begun(alloc, &mut ram)?;
    let mut block = block();
    let mut acknowledged = 0u64;
    for k in 0..times {
        block[(k % 2048) as usize + 1024] = (k % 256) as u8;
        let _ = submit(&mut handover, &ram, &block);
        turns_apart(&mut handover, &mut ram, Side::Firmware, FIRMWARE);
        if turns_apart(&mut handover, &mut ram, Side::Reader, READER) == Event::Ack {
            acknowledged = acknowledged.wrapping_add(1);
        }
        turns_apart(&mut handover, &mut ram, Side::Firmware, 1);
    }
    handover.end();
    Some(acknowledged)
}

/// Submits 64 such blocks and begins anew, so many times. It answers how many blocks were taken over.
pub fn submit_blocks(alloc: Global, times: u64) -> Option<u64> {
    let mut ram = memory(alloc)?;
    let mut handover = begun(alloc, &mut ram)?;
    let mut block = block();
    let mut accepted = 0u64;
    for k in 0..times {
        block[(k % 2048) as usize + 1024] = (k % 256) as u8;
        for _ in 0..64u8 {
            if submit(&mut handover, &ram, &block).is_ok() {
                accepted = accepted.wrapping_add(1);
            }
        }
        restart(&mut handover, &mut ram);
    }
    handover.end();
    Some(accepted)
}

/// Copies a block of 4,096 bytes twice, so many times. It answers the sum of one byte of each.
pub fn copy_twice(times: u64) -> Option<u64> {
    let mut one = block();
    let mut other = [0; BLOCK];
    let mut sum = 0u64;
    for k in 0..times {
        other.copy_from_slice(&one);
        other[(k % 4096) as usize] = (k % 256) as u8;
        one.copy_from_slice(&other);
        sum = sum.wrapping_add(u64::from(one[(k / 7 % 4096) as usize]));
    }
    Some(sum)
}

/// Copies a block of 4,096 bytes into memory and out of it, so many times, as a handover does: 64 bytes at a time, each by an
/// access of the space. It answers the sum of one byte of each.
pub fn copy_by_pieces(alloc: Global, times: u64) -> Option<u64> {
    let mut ram = memory(alloc)?;
    let mut one = block();
    let mut other = [0; BLOCK];
    let mut sum = 0u64;
    for k in 0..times {
        one[(k % 4096) as usize] = (k % 256) as u8;
        for piece in 0..64usize {
            let at = MAP.block + 64 * piece as u64;
            ram.write_bytes(at, &one[64 * piece..64 * piece + 64]).ok()?;
        }
        for piece in 0..64usize {
            let at = MAP.block + 64 * piece as u64;
            ram.look_bytes(at, &mut other[64 * piece..64 * piece + 64])
                .ok()?;
        }
        sum = sum.wrapping_add(u64::from(other[(k / 7 % 4096) as usize]));
    }
    Some(sum)
}

// Puts a piece of 64 bytes into memory.
#[inline(never)]
fn put_piece(ram: &mut Ram, piece: usize, bytes: &[u8; BLOCK])
    requires { piece < 64 }
{
    let at = MAP.block + 64 * piece as u64;
    let _ = ram.write_bytes(at, &bytes[64 * piece..64 * piece + 64]);
}

// Takes a piece of 64 bytes out of memory.
#[inline(never)]
fn take_piece(ram: &Ram, piece: usize, bytes: &mut [u8; BLOCK])
    requires { piece < 64 }
{
    let at = MAP.block + 64 * piece as u64;
    let _ = ram.look_bytes(at, &mut bytes[64 * piece..64 * piece + 64]);
}

/// The same, each access by a call of its own, so that no two of them share the look-up of their window. It answers the sum
/// of one byte of each.
pub fn copy_by_calls(alloc: Global, times: u64) -> Option<u64> {
    let mut ram = memory(alloc)?;
    let mut one = block();
    let mut other = [0; BLOCK];
    let mut sum = 0u64;
    for k in 0..times {
        one[(k % 4096) as usize] = (k % 256) as u8;
        for piece in 0..64usize {
            put_piece(&mut ram, piece, &one);
        }
        for piece in 0..64usize {
            take_piece(&ram, piece, &mut other);
        }
        sum = sum.wrapping_add(u64::from(other[(k / 7 % 4096) as usize]));
    }
    Some(sum)
}
