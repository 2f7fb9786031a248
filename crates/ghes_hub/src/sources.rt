// The sources of a hub over one memory.
ghost use Rattle.std.specs.Prelude.{◌≡◌, ◌≢◌, ℕ, ◌<◌, ◌≤◌, length, IfOk, OnOk, OnErr, MatchResult, IfSome, Some, None, slice_get, true};
ghost use Rattle.ghes_ack.specs.Machine.{Machine, submitted};
ghost use Rattle.ghes_hub.specs.Hubs.{last_in};
ghost use Rattle.ghes_hub.specs.Kinds.{Kind, turned_by};
ghost use Rattle.ghes_hub.specs.Layouts.{AreLaidOut, AreBegun};
ghost use Rattle.ghes_hub.specs.OneSource.{waiting_of, refusal_of};
ghost use Rattle.ghes_hub.specs.Runs.{takes};
ghost use Rattle.ghes_hub.specs.SourcesState.{StandsAt, layouts_in};

use crate::layouts::Layout;
use crate::source::Source;
use apei_bytes::OutOfMemory;
use apei_space::Ram;
use ghes_ack::{Event, Side, SubmitError};
use std::alloc::Global;
use std::marker::Model;

/// The sources of a hub, each with its own handover. They may not be dropped: `end` spends them.
pub struct Sources {
    ram: Ram,
    list: Vec<Source>,
}

impl Model for Sources {
    ghost use Rattle.ghes_hub.specs.SourcesState.{SourcesState, AreServed};

    ghost Value = { SourcesState };

    ghost view = { λ s. record { ram = s.ram; list = s.list.items } };

    ghost invariant = { λ s. AreServed s.ram s.list.items };
}

impl Sources {
    /// Begins a handover for each layout, in their order.
    pub fn begin(alloc: Global, layouts: &[Layout], mut ram: Ram) -> Result<Sources, OutOfMemory>
        requires { AreLaidOut layouts.now ram }
        ensures { IfOk result (λ sources. (length sources.list ≡ length layouts.now)
            × AreBegun layouts.now ram sources.ram sources.list) }
    {
        let mut list = Vec::with_capacity(alloc, layouts.len())?;
        while let Some(layout) = layouts.get(list.len()) {
            match Source::new(alloc, *layout, &mut ram) {
                Ok(handover) => list.push_reserved(handover),
                Err(_) => {
                    end_all(list);
                    return Err(OutOfMemory);
                }
            }
        }
        Ok(Sources { ram, list })
    }

    pub fn len(&self) -> usize
        ensures { result ≡ length self.now.list }
    {
        self.list.len()
    }

    pub fn turn(&mut self, source: usize, side: Side) -> Event
        requires { source < length self.old.list }
        ensures turned { (kind : Kind) (m : Machine) → StandsAt kind self.old source m
            → (result ≡ (turned_by kind side m).0) × StandsAt kind self.new source (turned_by kind side m).1 }
        ensures others { (kind : Kind) (other : ℕ) (m : Machine) → other ≢ source → StandsAt kind self.old other m
            → StandsAt kind self.new other m }
        ensures layouts { layouts_in self.new ≡ layouts_in self.old }
        ensures count { length self.new.list ≡ length self.old.list }
        ensures took { takes result ≡ true → 20 ≤ length (last_in self.new source) }
    {
        self.list[source].turn(side, &mut self.ram)
    }

    pub fn submit(&mut self, source: usize, block: &[u8]) -> Result<u32, SubmitError>
        requires { source < length self.old.list }
        ensures submitted { OnOk result ((kind : Kind) (m : Machine) → StandsAt kind self.old source m
            → StandsAt kind self.new source (submitted m block.now)) }
        ensures others { (kind : Kind) (other : ℕ) (m : Machine) → other ≢ source → StandsAt kind self.old other m
            → StandsAt kind self.new other m }
        ensures number { IfOk result (λ waiting. IfSome (slice_get self.new.list source)
            (λ handover. waiting ≡ length (waiting_of handover))) }
        ensures exact { IfSome (slice_get self.old.list source)
            (λ handover. MatchResult result (λ _. refusal_of handover block.now ≡ None)
            (λ error. refusal_of handover block.now ≡ Some error)) }
        ensures layouts { layouts_in self.new ≡ layouts_in self.old }
        ensures count { length self.new.list ≡ length self.old.list }
        ensures refused { OnErr result (self.new ≡ self.old) }
    {
        self.list[source].submit(block)
    }

    /// The block that a source took last, empty where it took none.
    pub fn taken(&self, source: usize) -> &[u8]
        requires { source < length self.now.list }
        ensures { result.now ≡ last_in self.now source }
    {
        self.list[source].taken()
    }

    /// Spends the handovers.
    pub fn end(self) {
        let Sources { ram: _, list } = self;
        end_all(list);
    }
}

/// Spends handovers.
fn end_all(mut list: Vec<Source>) {
    while let Some(handover) = list.pop() {
        handover.end();
    }
    list.destroy_empty();
}
