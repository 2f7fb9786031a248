// The boot error region: fatal blocks laid behind one another.
ghost use Rattle.std.specs.Prelude.{◌≡◌, ◌⊎◌, ◌<◌, ◌≤◌, ◌+◌, ◌^◌, length, min, true, false, IfOk, IfErr, OnOk, OnErr, MatchResult, Some, None};
ghost use Rattle.base_model.specs.Bytes.{zeros};
ghost use Rattle.apei_tables.specs.declared.registers.Place.TheVariants.{Memory as InMemory};
ghost use Rattle.ghes_port.specs.Machine.{IsTold, Writes};
ghost use Rattle.ghes_port.specs.Boot.{boot_told, boot_after, boot_laying, boot_begun, boot_refusal, outcome_of, is_misplaced};

use crate::accesses::{Access, Outcome};
use crate::writes::{show, write_piece};
use apei_space::put_part;
use apei_tables::Place;
use ghes_ack::check_block;
use std::alloc::Global;
use std::marker::Model;

/// The bytes of a piece.
const PIECE: usize = 64;

/// What is done next.
#[derive(Clone, Copy, Debug, PartialEq, Eq)]
pub enum BootStage {
    /// The piece with this number of the region is set to 0.
    Clear { piece: u32 },
    /// Nothing: a block may be laid.
    Rest,
    /// The piece with this number of the block is written, after its block status.
    Fill { piece: u32 },
    /// The block status is written.
    Show,
}

/// Why there is no region, or why a block is not laid: the first reason that applies. Nothing has changed then.
#[derive(Clone, Copy, Debug, PartialEq, Eq)]
pub enum BootError {
    /// The region stands at 0 or at no multiple of 4, has fewer than 20 bytes, or ends past 2^64 - 1.
    Place,
    /// The region is being cleared, or another block is being laid.
    Busy,
    /// What is left of the region is too short for it, or it is not exactly one error status block.
    Bad(ghes_ack::SubmitError),
    /// There was no memory.
    Memory,
}

/// A boot error region in memory that keeps its bytes over a reset (ACPI 6.4, 18.3.1). It tells the accesses that its owner makes.
#[derive(Drop)]
pub struct BootRegion {
    at: u64,
    len: u32,
    end: u32,
    stage: BootStage,
    block: Vec<u8>,
}

impl Model for BootRegion {
    ghost use Rattle.ghes_port.specs.Boot.{BootState, IsBoot, IsRoomy};

    ghost Value = { BootState };

    ghost view = { λ b. record { at = b.at; len = b.len; end = b.end; stage = b.stage; block = b.block.items } };

    ghost invariant = { λ b. IsBoot (record { at = b.at; len = b.len; end = b.end; stage = b.stage; block = b.block.items })
        × IsRoomy b.len b.block };
}

/// Whether no region of `len` bytes may lie at an address: it is 0 or no multiple of 4, there are fewer than 20 bytes, or they end past 2^64 - 1.
pub fn is_misplaced(at: u64, len: u32) -> bool
    ensures { result ≡ is_misplaced at len }
{
    at == 0 || at % 4 != 0 || len < 20 || u128::from(at) + u128::from(len) > u128::from(u64::MAX)
}

/// A write of zeros.
fn write_zeros(at: u64, n: usize, out: &mut [u8]) -> Access
    requires few { n ≤ 64 }
    requires room { 64 ≤ length out.old }
    ensures { IsTold (Writes (InMemory at) (zeros n)) result out.old out.new }
{
    let blank = [0; PIECE];
    put_part(out, 0, &blank[..n]);
    Access::Write {
        place: Place::Memory(at),
        size: n as u32,
    }
}

impl BootRegion {
    /// A region of `len` bytes at an address, before its first access. No other call takes memory.
    pub fn new(alloc: Global, at: u64, len: u32) -> Result<BootRegion, BootError>
        ensures begun { IfOk result (λ region. region ≡ boot_begun at len) }
        ensures placed { OnOk result (is_misplaced at len ≡ false) }
        ensures refused { IfErr result (λ error. ((error ≡ BootError.Place) × (is_misplaced at len ≡ true))
            ⊎ ((error ≡ BootError.Memory) × (is_misplaced at len ≡ false))) }
    {
        if is_misplaced(at, len) {
            return Err(BootError::Place);
        }
        let Ok(block) = Vec::with_capacity(alloc, len as usize) else {
            return Err(BootError::Memory);
        };
        Ok(BootRegion {
            at,
            len,
            end: 0,
            stage: BootStage::Clear { piece: 0 },
            block,
        })
    }

    /// Begins to lay a fatal block behind those that were laid.
    pub fn lay(&mut self, block: &[u8]) -> Result<(), BootError>
        ensures laying { OnOk result (self.new ≡ boot_laying self.old block.now) }
        ensures exact { MatchResult result (λ _. boot_refusal self.old self.old.stage block.now ≡ None)
            (λ error. boot_refusal self.old self.old.stage block.now ≡ Some error) }
        ensures refused { OnErr result (self.new ≡ self.old) }
    {
        match self.stage {
            BootStage::Rest => {}
            _ => return Err(BootError::Busy),
        }
        if let Err(fault) = check_block(block, self.len - self.end, 0) {
            return Err(BootError::Bad(fault));
        }
        self.block.clear();
        let _ = self.block.extend_from_slice(block);
        self.stage = BootStage::Fill { piece: 0 };
        Ok(())
    }

    /// What is to be done next. The bytes of a write go to the front of `out`. It may be asked again: it changes nothing.
    pub fn access(&self, out: &mut [u8]) -> Access
        requires { 64 ≤ length out.old }
        ensures { IsTold (boot_told self.now) result out.old out.new }
    {
        match self.stage {
            BootStage::Clear { piece } => {
                let from = PIECE * piece as usize;
                let n = (self.len as usize - from).min(PIECE);
                write_zeros(self.at + from as u64, n, out)
            }
            BootStage::Rest => Access::Nothing,
            BootStage::Fill { piece } => {
                write_piece(self.at + u64::from(self.end), &self.block, piece, out)
            }
            BootStage::Show => show(self.at + u64::from(self.end), &self.block, out),
        }
    }

    /// Says that it is done.
    pub fn done(&mut self) -> Outcome
        ensures state { self.new ≡ boot_after self.old }
        ensures outcome { result ≡ outcome_of self.old.stage }
    {
        match self.stage {
            BootStage::Clear { piece } => {
                self.stage = if PIECE * (piece as usize + 1) < self.len as usize {
                    BootStage::Clear { piece: piece + 1 }
                } else {
                    BootStage::Rest
                };
            }
            BootStage::Rest => return Outcome::Nothing,
            BootStage::Fill { piece } => {
                self.stage = if 4 + PIECE * (piece as usize + 1) < self.block.len() {
                    BootStage::Fill { piece: piece + 1 }
                } else {
                    BootStage::Show
                };
            }
            BootStage::Show => {
                self.end += self.block.len() as u32;
                self.stage = BootStage::Rest;
            }
        }
        Outcome::Done
    }
}
