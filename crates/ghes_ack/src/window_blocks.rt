// The blocks of a handover.
ghost use Rattle.std.specs.Prelude.{◌≡◌, ◌<◌, ◌≤◌, length, All, vec_len, vec_capacity, IfOk, MatchOption};
ghost use Rattle.std.specs.VecDeque.{deque_len};
ghost use Rattle.ghes_ack.specs.WindowQueues.{HasRoom, IsWide, IsEmpty, HoldsNone, TakesOut, Adds};

use crate::window_maps::HasWindow;
use apei_bytes::OutOfMemory;
use std::alloc::Global;
use std::collections::VecDeque;
use std::mem::replace;

/// The blocks that wait at most.
pub const WAITING: usize = 64;

/// The blocks that wait, the one at work, the one taken last, and buffers for more. Nothing here grows. The block at work and its
/// pieces are moved by the turns of the two sides alone.
#[derive(Drop)]
pub struct Blocks<M> {
    pub map: M,
    pub waiting: VecDeque<Vec<u8>>,
    /// From its first piece filled to its last piece copied.
    pub at_work: Option<Vec<u8>>,
    /// The pieces of it that were filled, and copied.
    pub filled: u32,
    pub copied: u32,
    pub last: Vec<u8>,
    pub spare: Vec<Vec<u8>>,
}

/// 65 empty buffers with room for so many bytes.
fn buffers(alloc: Global, len: usize) -> Result<Vec<Vec<u8>>, OutOfMemory>
    ensures count { IfOk result (λ spare. vec_len spare ≡ 65) }
    ensures stack { IfOk result (λ spare. 65 ≤ vec_capacity spare) }
    ensures rooms { IfOk result (λ spare. All (IsWide len) spare.items) }
{
    let mut spare = Vec::with_capacity(alloc, 65)?;
    for _ in 0..65_usize {
        spare.push_reserved(Vec::with_capacity(alloc, len)?);
    }
    Ok(spare)
}

impl<M: HasWindow + Drop> Blocks<M> {
    /// Room for 64 blocks that wait, the one at work and the one taken last.
    pub fn new(alloc: Global, map: M) -> Result<Blocks<M>, OutOfMemory>
        ensures room { IfOk result (HasRoom M.window_of 0) }
        ensures empty { IfOk result IsEmpty }
        ensures map { IfOk result (λ b. b.map ≡ map) }
    {
        let len = map.window().len as usize;
        Ok(Blocks {
            map,
            waiting: VecDeque::with_capacity(alloc, WAITING)?,
            at_work: None,
            filled: 0,
            copied: 0,
            last: Vec::with_capacity(alloc, len)?,
            spare: buffers(alloc, len)?,
        })
    }
}

impl<M: HasWindow> Blocks<M> {
    /// Puts a block behind those that wait.
    #[inline]
    pub fn add(&mut self, block: &[u8])
        requires room { HasRoom M.window_of 0 self.old }
        requires few { deque_len self.old.waiting < 64 }
        requires fits { length block.now ≤ (M.window_of self.old.map).len }
        ensures { Adds M.window_of self.old self.new block.now }
    {
        if let Some(mut place) = self.spare.pop() {
            place.clear();
            let _ = place.extend_from_slice(block);
            self.waiting.push_back_reserved(place);
        }
    }

    /// Takes out the block at work, or else the oldest that waits.
    #[inline]
    pub fn next(&mut self) -> Option<Vec<u8>>
        requires { HasRoom M.window_of 0 self.old }
        ensures { MatchOption result (HoldsNone M.window_of self.old self.new)
            (λ block. TakesOut M.window_of self.old self.new block) }
    {
        match self.at_work.take() {
            Some(block) => Some(block),
            None => self.waiting.pop_front(),
        }
    }

    /// Makes a block the one taken last.
    #[inline]
    pub fn take(&mut self, block: Vec<u8>)
        requires room { HasRoom M.window_of 1 self.old }
        requires wide { IsWide (M.window_of self.old.map).len block }
        ensures room { HasRoom M.window_of 0 self.new }
        ensures last { self.new ≡ record self.old { last = block; spare = self.new.spare } }
    {
        let old = replace(&mut self.last, block);
        self.spare.push_reserved(old);
    }

    /// Forgets every block.
    pub fn forget(&mut self)
        requires { HasRoom M.window_of 0 self.old }
        ensures room { HasRoom M.window_of 0 self.new }
        ensures empty { IsEmpty self.new }
        ensures map { self.new.map ≡ self.old.map }
    {
        if let Some(block) = self.at_work.take() {
            self.spare.push_reserved(block);
        }
        while let Some(block) = self.waiting.pop_front() {
            self.spare.push_reserved(block);
        }
        self.last.clear();
        self.filled = 0;
        self.copied = 0;
    }
}
