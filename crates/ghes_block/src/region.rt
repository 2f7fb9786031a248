// The boot error region.
ghost use Rattle.std.specs.Prelude.{◌≡◌, ℕ, ◌-◌, ◌^◌, ◌<◌, ◌≤◌, ◌++◌, ◌∷◌, [], List, length, Some, None, Ok, Err, IfOk, IfSome, OnErr, MatchOption, MatchResult};
ghost use Rattle.base_model.specs.Bytes.{joined, part};
ghost use Rattle.ghes_block.specs.Grammar.{IsBlock};
ghost use Rattle.ghes_block.specs.Region.{IsOneBlock, IsLaidOut, IsListOf, FindsNext, ends, zeros, next_from};

use crate::{Block, BlockError};
use apei_bytes::get_u32;

/// Fewer bytes are left behind the last block than a block has, which is `need`.
#[derive(Clone, Copy, Debug, PartialEq, Eq)]
pub struct RegionFull {
    pub need: u64,
}

/// The bytes of a block's head.
const HEAD: usize = 20;

/// Whether no block begins here: fewer than 20 bytes are left, or the block status is 0.
fn is_end(rest: &[u8]) -> bool
    ensures { result ≡ ends rest.now }
{
    rest.len() < HEAD || get_u32(rest, 0) == 0
}

/// How many bytes the block that stands first has; `None` where no block begins.
fn first_size(rest: &[u8]) -> Option<usize>
    ensures block { (block tail : List ℕ) → IsOneBlock block → rest.now ≡ block ++ tail → result ≡ Some (length block) }
    ensures zeros { (n : ℕ) → rest.now ≡ zeros n → result ≡ None }
    ensures within { IfSome result (λ size. (0 < size) × (size ≤ length rest.now)) }
{
    if is_end(rest) {
        return None;
    }
    match Block::decode(rest) {
        Ok((_, size)) => Some(size),
        Err(_) => None,
    }
}

/// Where the zeros behind the blocks begin.
fn end_of(region: &[u8]) -> usize
    ensures place { (blocks : List (List ℕ)) (left : ℕ) → IsLaidOut blocks left region.now
        → result ≡ length (joined blocks) }
    ensures within { result ≤ length region.now }
{
    let mut at = 0;
    while let Some(size) = first_size(&region[at..]) {
        at += size;
    }
    at
}

/// Puts a block behind the last one, and answers its place. A refusal leaves the region as it is.
pub fn lay(region: &mut [u8], block: &[u8]) -> Result<u32, RegionFull>
    requires small { length region.old < 2 ^ 32 }
    requires laid { (blocks : List (List ℕ)) × (left : ℕ) × IsLaidOut blocks left region.old }
    requires whole { IsOneBlock block.now }
    ensures laid { IfOk result (λ at. (blocks : List (List ℕ)) (left : ℕ) → IsLaidOut blocks left region.old →
        (at ≡ length (joined blocks)) × IsLaidOut (blocks ++ block.now ∷ []) (left - length block.now) region.new) }
    ensures exact { (blocks : List (List ℕ)) (left : ℕ) → IsLaidOut blocks left region.old
        → MatchResult result (λ _. length block.now ≤ left) (λ full. (full.need ≡ length block.now)
        × (left < length block.now)) }
    ensures kept { OnErr result (region.new ≡ region.old) }
{
    let at = end_of(region);
    if region.len() - at < block.len() {
        return Err(RegionFull {
            need: block.len() as u64,
        });
    }
    region[at..at + block.len()].copy_from_slice(block);
    Ok(at as u32)
}

/// The block at a place and the place behind it, which is that of the next one; `None` where fewer than 20 bytes are left or
/// the block status is 0. The first block is at 0.
pub fn take(region: &[u8], at: u32) -> Result<Option<(Block<'_>, u32)>, BlockError>
    requires small { length region.now < 2 ^ 32 }
    requires inside { at ≤ length region.now }
    // What is there, and why it is no block.
    ensures exact { MatchResult result
        (λ found. MatchOption found (next_from region.now at ≡ Ok None) (λ x. next_from region.now at ≡ Ok (Some x.1)))
        (λ error. next_from region.now at ≡ Err error) }
    // What is found is the block of these bytes.
    ensures block { IfOk result (λ found. IfSome found (λ x. IsBlock x.0 (part region.now at (x.1 - at)))) }
{
    let rest = &region[at as usize..];
    if is_end(rest) {
        return Ok(None);
    }
    match Block::decode(rest) {
        Ok((block, size)) => Ok(Some((block, at + size as u32))),
        Err(error) => Err(error),
    }
}

/// Calls of `take`, each from the place that the one before it answered, walk the region's list of blocks: from the end of
/// some of them the next call finds the next block with all its bytes, or none where there is none.
pub fn walks_the_list()
    ensures { (region : List ℕ) (before after : List (List ℕ)) → IsListOf (before ++ after) region
        → FindsNext region (length (joined before)) after }
{}

/// Whole blocks and then zeros are the region's list.
pub fn what_is_laid_is_the_list()
    ensures { (region : List ℕ) (blocks : List (List ℕ)) (left : ℕ) → IsLaidOut blocks left region
        → IsListOf blocks region }
{}
