// A source of either kind.
ghost use Rattle.std.specs.Prelude.{◌≡◌, length, IfOk, OnOk, OnErr, MatchResult, Some, None};
ghost use Rattle.apei_space.specs.RamState.{RamState};
ghost use Rattle.ghes_ack.specs.Machine.{Machine, started, submitted};
ghost use Rattle.ghes_ack.specs.Elsewhere.{SameWhere};
ghost use Rattle.ghes_hub.specs.Layouts.{HasLayout, layout_kind, layout_windows, layout_window};
ghost use Rattle.ghes_hub.specs.Places.{IsOff};
ghost use Rattle.ghes_hub.specs.OneSource.{SourceStands, SourceTurned, layout_in, last_of, waiting_of, refusal_of};

use crate::layouts::Layout;
use crate::plain::PlainHandover;
use apei_bytes::OutOfMemory;
use apei_space::Ram;
use ghes_ack::{Event, Handover, Side, SubmitError};
use std::alloc::Global;

/// The handover of a source: with a read acknowledgement, or without.
pub enum Source {
    Acknowledged(Handover),
    Plain(PlainHandover),
}

impl Source {
    /// Begins the handover of a source. No other call takes memory.
    pub fn new(alloc: Global, layout: Layout, ram: &mut Ram) -> Result<Source, OutOfMemory>
        requires { HasLayout layout ram.old }
        ensures stands { IfOk result (λ handover. SourceStands handover ram.new
            (started (layout_window layout ram.old))) }
        ensures layout { IfOk result (λ handover. layout_in handover ≡ layout) }
        ensures windows { IfOk result (λ handover. layout_windows (layout_in handover) ≡ layout_windows layout) }
        ensures elsewhere { SameWhere (IsOff (layout_windows layout)) ram.old ram.new }
    {
        match layout {
            Layout::Acknowledged(map) => Ok(Source::Acknowledged(Handover::new(alloc, map, ram)?)),
            Layout::Plain(map) => Ok(Source::Plain(PlainHandover::new(alloc, map, ram)?)),
        }
    }

    pub fn submit(&mut self, block: &[u8]) -> Result<u32, SubmitError>
        ensures stands { OnOk result ((ram : RamState) (m : Machine) → SourceStands self.old ram m
            → SourceStands self.new ram (submitted m block.now)) }
        ensures number { IfOk result (λ waiting. waiting ≡ length (waiting_of self.new)) }
        ensures exact { MatchResult result (λ _. refusal_of self.old block.now ≡ None)
            (λ error. refusal_of self.old block.now ≡ Some error) }
        ensures places { layout_in self.new ≡ layout_in self.old }
        ensures refused { OnErr result (self.new ≡ self.old) }
    {
        match self {
            Source::Acknowledged(handover) => handover.submit(block),
            Source::Plain(handover) => handover.submit(block),
        }
    }

    pub fn turn(&mut self, side: Side, ram: &mut Ram) -> Event
        requires { (m : Machine) × SourceStands self.old ram.old m }
        ensures turned { (m : Machine) → SourceStands self.old ram.old m
            → SourceTurned (layout_kind (layout_in self.old)) side result self.new ram.new m }
        ensures elsewhere { SameWhere (IsOff (layout_windows (layout_in self.old))) ram.old ram.new }
        ensures places { layout_in self.new ≡ layout_in self.old }
    {
        match self {
            Source::Acknowledged(handover) => handover.turn(side, ram),
            Source::Plain(handover) => handover.turn(side, ram),
        }
    }

    pub fn taken(&self) -> &[u8]
        ensures { result.now ≡ last_of self.now }
    {
        match self {
            Source::Acknowledged(handover) => handover.taken(),
            Source::Plain(handover) => handover.taken(),
        }
    }

    pub fn end(self) {
        match self {
            Source::Acknowledged(handover) => handover.end(),
            Source::Plain(handover) => handover.end(),
        }
    }
}
