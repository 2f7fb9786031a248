// Several sources over one memory.
ghost use Rattle.std.specs.Prelude.{◌≡◌, ◌⊎◌, [], ◌<◌, ◌≤◌, length, map, IfOk, OnOk, OnErr, IfErr, MatchResult, Some, None, slice_get, vec_len};
ghost use Rattle.hest_sources.specs.Tables.{IsHest};
ghost use Rattle.ghes_port.specs.Machine.{told, IsTold, after, outcome_at, refusal, submitted, reset, IsGood};
ghost use Rattle.ghes_port.specs.Sound.{IsReached};
ghost use Rattle.ghes_port.specs.Setups.{begun, earlier_fault, setups_fault, open_fault, IsRefusal};
ghost use Rattle.ghes_port.specs.Tables.{stated};
ghost use Rattle.ghes_port.specs.Several.{IsAt, Becomes, IsSoundAfter, RefusesAfter, RefusesAll};

use crate::accesses::{Access, Outcome};
use crate::errors::{NotReached, OpenError, SubmitError};
use crate::maps::SourceMap;
use crate::setups::{Setup, check_setup};
use crate::source::Source;
use crate::stages::{Stage, Unacknowledged};
use crate::table::hest;
use std::alloc::Global;
use std::marker::Model;

/// Error sources that are served together, and their table.
#[derive(Drop)]
pub struct Sources {
    list: Vec<Source>,
    table: Vec<u8>,
}

impl Model for Sources {
    ghost use Rattle.std.specs.Prelude.{◌≤◌, vec_len};
    ghost use Rattle.ghes_port.specs.Several.{SourcesState};

    ghost Value = { SourcesState };

    ghost view = { λ s. record { list = s.list.items; table = s.table.items } };

    ghost invariant = { λ s. vec_len s.list ≤ 64 };
}

impl Sources {
    /// Between 1 and 64 sources before their first access. No other call takes memory.
    pub fn open(alloc: Global, setups: &[Setup]) -> Result<Sources, OpenError>
        ensures opened { IfOk result (λ s. s.list ≡ map begun setups.now) }
        ensures table { IfOk result (λ s. IsHest (stated setups.now) s.table) }
        ensures sound { OnOk result (open_fault setups.now ≡ None) }
        ensures refused { IfErr result (IsRefusal setups.now) }
    {
        if setups.is_empty() || setups.len() > 64 {
            return Err(OpenError::Count {
                found: setups.len() as u64,
            });
        }
        let list = begin(alloc, setups)?;
        let Ok(table) = hest(alloc, setups) else {
            return Err(OpenError::Memory);
        };
        Ok(Sources { list, table })
    }

    /// How many there are.
    pub fn count(&self) -> usize
        ensures count { result ≡ length self.now.list }
        ensures few { result ≤ 64 }
    {
        self.list.len()
    }

    /// The Hardware Error Source Table for the guest.
    pub fn table(&self) -> &[u8]
        ensures { result.now ≡ self.now.table }
    {
        &self.table
    }

    /// Takes an error status block over for a source, and answers how many of its blocks are not acknowledged then.
    pub fn submit(&mut self, index: usize, block: &[u8]) -> Result<u32, SubmitError>
        requires { index < length self.old.list }
        ensures added { OnOk result (Becomes index self.old self.new (λ old. submitted old block.now)) }
        ensures good { OnOk result (IsAt index self.old.list (λ old. IsGood old.map.len block.now)) }
        ensures number { IfOk result (λ waiting. IsAt index self.new.list (λ new. waiting ≡ length new.queue)) }
        ensures exact { IsAt index self.old.list (λ old. MatchResult result (λ _. refusal old block.now ≡ None)
            (λ error. refusal old block.now ≡ Some error)) }
        ensures refused { OnErr result (self.new ≡ self.old) }
    {
        self.list[index].submit(block)
    }

    /// What is to be done next for a source. The bytes of a write go to the front of `out`.
    pub fn access(&self, index: usize, out: &mut [u8]) -> Access
        requires source { index < length self.now.list }
        requires room { 64 ≤ length out.old }
        ensures { IsAt index self.now.list (λ source. IsTold (told source) result out.old out.new) }
    {
        self.list[index].access(out)
    }

    /// Says that it is done, and for a read which number was read.
    pub fn done(&mut self, index: usize, value: u64) -> Outcome
        requires { index < length self.old.list }
        ensures state { Becomes index self.old self.new (λ old. after old value) }
        ensures outcome { IsAt index self.old.list (λ old. result ≡ outcome_at old.map old.queue old.stage value) }
    {
        self.list[index].done(value)
    }

    /// The source with this index.
    pub fn source(&self, index: usize) -> &Source
        requires { index < length self.now.list }
        ensures { slice_get self.now.list index ≡ Some result.now }
    {
        &self.list[index]
    }

    /// Goes on with the blocks of a source from a stage, if these let it be there.
    pub fn go_on(&mut self, index: usize, stage: Stage) -> Result<(), NotReached>
        requires { index < length self.old.list }
        ensures reached { OnOk result (IsAt index self.old.list (λ old. IsReached old.map old.queue stage)) }
        ensures stage { OnOk result (Becomes index self.old self.new (λ old. record old { stage = stage })) }
        ensures refused { OnErr result (IsAt index self.old.list (λ old. IsReached old.map old.queue stage → ⊥)) }
        ensures same { OnErr result (self.new ≡ self.old) }
    {
        self.list[index].go_on(stage)
    }

    /// A guest starts again: a source is before its first access.
    pub fn reset(&mut self, index: usize, blocks: Unacknowledged)
        requires { index < length self.old.list }
        ensures { Becomes index self.old self.new (λ old. reset blocks old) }
    {
        self.list[index].reset(blocks);
    }
}

/// Checks each source beside those before it, and begins it.
fn begin(alloc: Global, setups: &[Setup]) -> Result<Vec<Source>, OpenError>
    requires { length setups.now ≤ 64 }
    ensures list { IfOk result (λ list. list.items ≡ map begun setups.now) }
    ensures few { IfOk result (λ list. vec_len list ≤ 64) }
    ensures sound { OnOk result (setups_fault [] 0 setups.now ≡ None) }
    ensures refused { IfErr result (RefusesAll setups.now) }
{
    let Ok(mut list) = Vec::with_capacity(alloc, setups.len()) else {
        return Err(OpenError::Memory);
    };
    while let Some(setup) = setups.get(list.len()) {
        match begin_one(alloc, &list, setup) {
            Ok(source) => list.push_reserved(source),
            Err(error) => return Err(error),
        }
    }
    Ok(list)
}

/// Checks a source beside earlier ones, and begins it.
fn begin_one(alloc: Global, earlier: &[Source], setup: &Setup) -> Result<Source, OpenError>
    requires { length earlier.now ≤ 64 }
    ensures begun { IfOk result (λ source. source ≡ begun setup.now) }
    ensures sound { OnOk result (IsSoundAfter earlier.now setup.now) }
    ensures refused { IfErr result (RefusesAfter earlier.now setup.now) }
{
    let index = earlier.len() as u32;
    let map = check_setup(index, setup)?;
    check_earlier(index, earlier, setup.source.id, &map)?;
    match Source::new(alloc, setup.source.id, map, setup.places) {
        Ok(source) => Ok(source),
        Err(_) => Err(OpenError::Memory),
    }
}

/// Whether a source may be served beside all earlier ones.
fn check_earlier(index: u32, earlier: &[Source], id: u16, map: &SourceMap) -> Result<(), OpenError>
    ensures { MatchResult result (λ _. earlier_fault index earlier.now id map.now ≡ None)
        (λ error. earlier_fault index earlier.now id map.now ≡ Some error) }
{
    let mut at: usize = 0;
    while let Some(one) = earlier.get(at) {
        one.check_beside(index, id, map)?;
        at += 1;
    }
    Ok(())
}
