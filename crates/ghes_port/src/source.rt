// The firmware's side of one source.
ghost use Rattle.std.specs.Prelude.{◌≡◌, [], ℕ, List, ◌≤◌, length, drop, IfOk, OnOk, OnErr, MatchResult, MatchBool, MatchOption, IfSome, slice_get, ◌<◌, Some, None, All, vec_len, vec_capacity};
ghost use Rattle.ghes_port.specs.Machine.{told, IsTold, after, outcome_at, refusal, submitted, reset, IsGood};
ghost use Rattle.ghes_port.specs.Sound.{IsPlaced, IsReached, IsSource, HasBlock};
ghost use Rattle.ghes_port.specs.Setups.{pair_fault};
ghost use Rattle.ghes_port.specs.Queues.{IsWide};
ghost use Rattle.ghes_port.specs.declared.stages.Stage.{Stage as AnyStage};

use crate::accesses::{Access, Outcome};
use crate::errors::{NotReached, OpenError, SubmitError};
use crate::maps::SourceMap;
use crate::overlaps::maps_meet;
use crate::stages::{Stage, Unacknowledged};
use crate::steps::{frees, next_stage, piece_done};
use crate::writes::{ask_ack, clear_ack, hide, read_ack, set_ack, show, tell_address, write_piece};
use apei_bytes::OutOfMemory;
use ghes_ack::check_block;
use std::alloc::Global;
use std::collections::VecDeque;
use std::marker::Model;

/// The firmware's side of one error source: the blocks that are not acknowledged, and what it does next.
#[derive(Drop)]
pub struct Source {
    id: u16,
    map: SourceMap,
    stage: Stage,
    places: u32,
    queue: VecDeque<Vec<u8>>,
    spare: Vec<Vec<u8>>,
}

impl Model for Source {
    ghost use Rattle.ghes_port.specs.Machine.{SourceState};
    ghost use Rattle.ghes_port.specs.Sound.{IsSource};
    ghost use Rattle.ghes_port.specs.Queues.{HasRoom, state_of};

    ghost Value = { SourceState };

    ghost view = { λ s. state_of s.id s.map s.stage s.queue s.places };

    ghost invariant = { λ s. IsSource (state_of s.id s.map s.stage s.queue s.places)
        × HasRoom s.map.len s.places s.queue s.spare };
}

/// So many empty buffers with room for `len` bytes.
fn buffers(alloc: Global, places: usize, len: usize) -> Result<Vec<Vec<u8>>, OutOfMemory>
    ensures count { IfOk result (λ spare. vec_len spare ≡ places) }
    ensures room { IfOk result (λ spare. places ≤ vec_capacity spare) }
    ensures wide { IfOk result (λ spare. All (IsWide len) spare.items) }
{
    let mut spare = Vec::with_capacity(alloc, places)?;
    for _ in 0..places {
        spare.push_reserved(Vec::with_capacity(alloc, len)?);
    }
    Ok(spare)
}

impl Source {
    /// A source before its first access, with places for so many blocks. No other call takes memory.
    pub(crate) fn new(
        alloc: Global,
        id: u16,
        map: SourceMap,
        places: u32,
    ) -> Result<Source, OutOfMemory>
        requires placed { IsPlaced map }
        requires short { map.len ≤ 65536 }
        requires few { places ≤ 65536 }
        ensures { IfOk result (λ source. source ≡
            record { id = id; map = map; stage = Stage.Hide; queue = []; places = places }) }
    {
        let spare = buffers(alloc, places as usize, map.len as usize)?;
        let queue = VecDeque::with_capacity(alloc, places as usize)?;
        Ok(Source {
            id,
            map,
            stage: Stage::Hide,
            places,
            queue,
            spare,
        })
    }

    /// Whether a further source may be served beside this one.
    pub(crate) fn check_beside(&self, index: u32, id: u16, map: &SourceMap) -> Result<(), OpenError>
        ensures { MatchResult result (λ _. pair_fault index self.now id map.now ≡ None)
            (λ error. pair_fault index self.now id map.now ≡ Some error) }
    {
        if self.id == id {
            return Err(OpenError::Id { index });
        }
        if maps_meet(&self.map, map) {
            return Err(OpenError::Clash { index });
        }
        Ok(())
    }

    /// Takes an error status block over, and answers how many are not acknowledged then.
    pub fn submit(&mut self, block: &[u8]) -> Result<u32, SubmitError>
        ensures added { OnOk result (self.new ≡ submitted self.old block.now) }
        ensures good { OnOk result (IsGood self.old.map.len block.now) }
        ensures number { IfOk result (λ waiting. waiting ≡ length self.new.queue) }
        ensures exact { MatchResult result (λ _. refusal self.old block.now ≡ None)
            (λ error. refusal self.old block.now ≡ Some error) }
        ensures refused { OnErr result (self.new ≡ self.old) }
    {
        if let Err(fault) = check_block(block, self.map.len, 0) {
            return Err(SubmitError::Bad(fault));
        }
        let Some(mut place) = self.spare.pop() else {
            return Err(SubmitError::Full);
        };
        place.clear();
        let _ = place.extend_from_slice(block);
        self.queue.push_back_reserved(place);
        Ok(self.queue.len() as u32)
    }

    /// What is to be done next. The bytes of a write go to the front of `out`. It may be asked again: it changes nothing.
    pub fn access(&self, out: &mut [u8]) -> Access
        requires { 64 ≤ length out.old }
        ensures { IsTold (told self.now) result out.old out.new }
    {
        match self.stage {
            Stage::Hide => hide(&self.map, out),
            Stage::TellAddress => tell_address(&self.map, out),
            Stage::ReadFirst | Stage::ReadAck => read_ack(&self.map.ack),
            Stage::SetAck { read } => set_ack(&self.map.ack, read, out),
            Stage::ClearAck { read } => clear_ack(&self.map.ack, read, out),
            Stage::Notify => Access::Notify,
            Stage::Await => ask_ack(&self.map),
            Stage::Fill { piece } => match self.queue.front() {
                Some(block) => write_piece(self.map.block, block, piece, out),
                None => Access::Nothing,
            },
            Stage::Show => match self.queue.front() {
                Some(block) => show(self.map.block, block, out),
                None => Access::Nothing,
            },
        }
    }

    /// Says that it is done, and for a read which number was read. Any number is taken: a guest may have left anything there.
    pub fn done(&mut self, value: u64) -> Outcome
        ensures state { self.new ≡ after self.old value }
        ensures outcome { result ≡ outcome_at self.old.map self.old.queue self.old.stage value }
    {
        match self.stage {
            Stage::Await => {
                if !frees(&self.map.ack, value) {
                    return Outcome::Waits;
                }
                self.release();
                Outcome::Done
            }
            Stage::Fill { piece } => match self.queue.front() {
                Some(block) => {
                    self.stage = piece_done(&self.map, block, piece);
                    Outcome::Done
                }
                None => Outcome::Nothing,
            },
            stage => {
                self.stage = next_stage(&self.map, stage, value);
                Outcome::Done
            }
        }
    }

    /// Its identifier.
    pub fn id(&self) -> u16
        ensures { result ≡ self.now.id }
    {
        self.id
    }

    /// Where its two sides meet.
    pub fn map(&self) -> SourceMap
        ensures map { result ≡ self.now.map }
        ensures short { result.len ≤ 65536 }
    {
        self.map
    }

    /// What it does next.
    pub fn stage(&self) -> Stage
        ensures stage { result ≡ self.now.stage }
        ensures is { IsSource self.now }
    {
        self.stage
    }

    /// How many blocks may wait.
    pub fn places(&self) -> u32
        ensures places { result ≡ self.now.places }
        ensures few { result ≤ 65536 }
    {
        self.places
    }

    /// How many blocks are not acknowledged.
    pub fn count(&self) -> u32
        ensures count { result ≡ length self.now.queue }
        ensures few { result ≤ self.now.places }
    {
        self.queue.len() as u32
    }

    /// The block with this number, of those that are not acknowledged. The oldest one is 0.
    pub fn block(&self, index: u32) -> Option<&[u8]>
        ensures block { MatchOption result (length self.now.queue ≤ index)
            (λ block. slice_get self.now.queue index ≡ Some block.now) }
        ensures small { IfSome result (λ block. (index < 65536) × (length block.now ≤ 65536)) }
    {
        match self.queue.get(index as usize) {
            Some(block) => Some(block.as_slice()),
            None => None,
        }
    }

    /// Goes on with its blocks from a stage, if these let it be there.
    pub fn go_on(&mut self, stage: Stage) -> Result<(), NotReached>
        ensures { MatchResult result (λ _. IsReached self.old.map self.old.queue stage
            × (self.new ≡ record self.old { stage = stage }))
            (λ _. (IsReached self.old.map self.old.queue stage → ⊥) × (self.new ≡ self.old)) }
    {
        if !self.may_be_at(stage) {
            return Err(NotReached);
        }
        self.stage = stage;
        Ok(())
    }

    /// Whether its blocks let it be at a stage.
    fn may_be_at(&self, stage: Stage) -> bool
        ensures { MatchBool result (IsReached self.now.map self.now.queue stage)
            (IsReached self.now.map self.now.queue stage → ⊥) }
    {
        match stage {
            Stage::Hide | Stage::TellAddress => true,
            Stage::ReadFirst | Stage::SetAck { read: _ } => self.map.ack.is_some(),
            Stage::Fill { piece } => match self.queue.front() {
                Some(block) => 4 + 64 * (piece as usize) < block.len(),
                None => piece == 0,
            },
            Stage::ReadAck | Stage::ClearAck { read: _ } => {
                self.map.ack.is_some() && !self.queue.is_empty()
            }
            Stage::Show | Stage::Notify | Stage::Await => !self.queue.is_empty(),
        }
    }

    /// A guest starts again, whatever the one before it did: the source is before its first access.
    pub fn reset(&mut self, blocks: Unacknowledged)
        ensures { self.new ≡ reset blocks self.old }
    {
        if blocks == Unacknowledged::Forget {
            self.forget();
        }
        self.stage = Stage::Hide;
    }

    /// Gives the places of all blocks back.
    fn forget(&mut self)
        ensures { (stage : AnyStage) × (self.new ≡ record self.old { stage = stage; queue = [] }) }
    {
        while self.forgets_oldest() {}
    }

    /// Gives the place of the oldest block back, if there is one.
    fn forgets_oldest(&mut self) -> bool
        ensures { MatchBool result (HasBlock self.old.queue
            × (self.new ≡ record self.old { stage = Stage.Fill 0; queue = drop 1 self.old.queue }))
            ((self.old.queue ≡ []) × (self.new ≡ self.old)) }
    {
        if self.queue.is_empty() {
            return false;
        }
        self.release();
        true
    }

    /// Gives the place of the oldest block back, and goes on to the next one.
    fn release(&mut self)
        requires { HasBlock self.old.queue }
        ensures { self.new ≡ record self.old { stage = Stage.Fill 0; queue = drop 1 self.old.queue } }
    {
        let Some(block) = self.queue.pop_front() else {
            unreachable!();
        };
        self.spare.push_reserved(block);
        self.stage = Stage::Fill { piece: 0 };
    }
}
