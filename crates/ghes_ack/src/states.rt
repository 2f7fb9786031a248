// The two sides of a handover, each with its map, as values that must be spent: none of these types may be dropped.
ghost use Rattle.std.specs.Prelude.{◌≡◌, ◌+◌, ◌*◌, ◌<◌, ◌≤◌, length, take, drop, MatchResult};
ghost use Rattle.base_model.specs.Bytes.{part, number_at, spelled};
ghost use Rattle.ghes_ack.specs.Machine.{with_piece, with_status};
ghost use Rattle.ghes_ack.specs.Maps.{HasAckBits, HasWindows, IsSet, IsClear, ack_read, window, with_window, with_ack, with_clear, acknowledged, memory_started};

use crate::ends::{MayRead, MayWrite, MustAcknowledge, MustLook, MustWait, begin_with_register};
use crate::maps::HandoverMap;
use apei_space::Ram;
use std::marker::Model;

/// The firmware may write the block.
pub struct FirmBlock {
    map: HandoverMap,
    end: MayWrite,
}

/// The firmware waits for the acknowledgement of a published block.
pub struct AwaitAck {
    map: HandoverMap,
    end: MustWait,
}

/// The reader waits for a block.
pub struct OsIdle {
    map: HandoverMap,
    end: MustLook,
}

/// The reader may read the block.
pub struct OsBlock {
    map: HandoverMap,
    end: MayRead,
}

/// The reader has cleared the block status, and has still to acknowledge.
pub struct Cleared {
    map: HandoverMap,
    end: MustAcknowledge,
}

impl Model for FirmBlock {
    ghost use Rattle.ghes_ack.specs.declared.maps.HandoverMap.{HandoverMap};

    ghost Value = { HandoverMap };

    ghost view = { λ side. side.map };
}

impl Model for AwaitAck {
    ghost use Rattle.ghes_ack.specs.declared.maps.HandoverMap.{HandoverMap};

    ghost Value = { HandoverMap };

    ghost view = { λ side. side.map };
}

impl Model for OsIdle {
    ghost use Rattle.ghes_ack.specs.declared.maps.HandoverMap.{HandoverMap};

    ghost Value = { HandoverMap };

    ghost view = { λ side. side.map };
}

impl Model for OsBlock {
    ghost use Rattle.ghes_ack.specs.declared.maps.HandoverMap.{HandoverMap};

    ghost Value = { HandoverMap };

    ghost view = { λ side. side.map };
}

impl Model for Cleared {
    ghost use Rattle.ghes_ack.specs.declared.maps.HandoverMap.{HandoverMap};

    ghost Value = { HandoverMap };

    ghost view = { λ side. side.map };
}

/// Begins a handover: writes the block's address, sets the acknowledge bits, and sets the block status to 0.
pub fn start(map: HandoverMap, ram: &mut Ram) -> (FirmBlock, OsIdle)
    requires { HasWindows map ram.old }
    ensures memory { ram.new ≡ memory_started map ram.old }
    ensures set { HasAckBits map → IsSet map ram.new }
    ensures firm { result.0 ≡ map }
    ensures os { result.1 ≡ map }
{
    let (write, look) = begin_with_register(&map, ram);
    (FirmBlock { map, end: write }, OsIdle { map, end: look })
}

/// Ends a handover that both sides are done with.
pub fn stop(firm: FirmBlock, os: OsIdle) {
    let FirmBlock { map: _, end } = firm;
    end.end();
    let OsIdle { map: _, end } = os;
    end.end();
}

impl FirmBlock {
    /// Writes the piece of 64 bytes with this number, the last one shorter, with a block status of 0.
    #[inline(always)]
    pub fn fill(&mut self, ram: &mut Ram, block: &[u8], piece: u32)
        requires windows { HasWindows self.old ram.old }
        requires fits { length block.now ≤ self.old.len }
        requires begins { 64 * piece < length block.now }
        ensures memory { ram.new ≡ with_window self.old ram.old (with_piece (window self.old ram.old) block.now piece) }
        ensures same { self.new ≡ self.old }
    {
        self.end.fill(&self.map, ram, block, piece);
    }

    /// Clears the acknowledge bits, and then shows the block by its block status.
    pub fn publish(self, ram: &mut Ram, block: &[u8]) -> AwaitAck
        requires windows { HasWindows self ram.old }
        requires head { 20 ≤ length block.now }
        requires fits { length block.now ≤ self.len }
        requires status { 0 < number_at block.now 0 4 }
        requires filled { drop 4 (take (length block.now) (window self ram.old)) ≡ drop 4 block.now }
        ensures memory { ram.new ≡ with_window self (with_ack self ram.old (with_clear self (ack_read self ram.old)))
            (with_status (window self ram.old) (take 4 block.now)) }
        ensures clear { IsClear self ram.new }
        ensures map { result ≡ self }
    {
        let FirmBlock { map, end } = self;
        let end = end.publish(&map, ram, block);
        AwaitAck { map, end }
    }
}

impl AwaitAck {
    /// The block is the firmware's again exactly where the acknowledge bits are set.
    pub fn poll(self, ram: &Ram) -> Result<FirmBlock, AwaitAck>
        ensures { MatchResult result (λ firm. (firm ≡ self) × IsSet self ram.now)
            (λ wait. (wait ≡ self) × (¬ IsSet self ram.now)) }
    {
        let AwaitAck { map, end } = self;
        match end.poll(&map, ram) {
            Ok(end) => Ok(FirmBlock { map, end }),
            Err(end) => Err(AwaitAck { map, end }),
        }
    }
}

impl OsIdle {
    /// There is a block exactly where the block status isn't 0.
    pub fn poll(self, ram: &Ram) -> Result<OsBlock, OsIdle>
        requires { HasWindows self ram.now }
        ensures { MatchResult result (λ block. (block ≡ self) × (0 < number_at (window self ram.now) 0 4))
            (λ idle. (idle ≡ self) × (number_at (window self ram.now) 0 4 ≡ 0)) }
    {
        let OsIdle { map, end } = self;
        match end.poll(&map, ram) {
            Ok(end) => Ok(OsBlock { map, end }),
            Err(end) => Err(OsIdle { map, end }),
        }
    }
}

impl OsBlock {
    /// Copies bytes of the block from the start of the piece with this number on, as many as `out` has.
    pub fn copy(&mut self, ram: &Ram, piece: u32, out: &mut [u8])
        requires windows { HasWindows self.old ram.now }
        requires inside { 64 * piece + length out.old ≤ self.old.len }
        ensures bytes { out.new ≡ part (window self.old ram.now) (64 * piece) (length out.old) }
        ensures same { self.new ≡ self.old }
    {
        self.end.copy(&self.map, ram, 64 * u64::from(piece), out);
    }

    /// Sets the block status to 0.
    pub fn clear(self, ram: &mut Ram) -> Cleared
        requires { HasWindows self ram.old }
        ensures memory { ram.new ≡ with_window self ram.old (with_status (window self ram.old) (spelled 4 0)) }
        ensures map { result ≡ self }
    {
        let OsBlock { map, end } = self;
        let end = end.clear(&map, ram);
        Cleared { map, end }
    }
}

impl Cleared {
    /// Acknowledges: writes `(read & preserve) | write` to the acknowledge register.
    pub fn ack(self, ram: &mut Ram) -> OsIdle
        requires { HasWindows self ram.old }
        ensures memory { ram.new ≡ with_ack self ram.old (acknowledged self (ack_read self ram.old)) }
        ensures set { HasAckBits self → IsSet self ram.new }
        ensures map { result ≡ self }
    {
        let Cleared { map, end } = self;
        let end = end.acknowledge(&map, ram);
        OsIdle { map, end }
    }
}
