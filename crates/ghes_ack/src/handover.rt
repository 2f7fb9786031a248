// A handover of blocks, turn by turn.
ghost use Rattle.std.specs.Prelude.{◌≡◌, ◌∷◌, ◌++◌, [], length, IfOk, OnOk, OnErr, MatchOption, MatchResult, Some, None};
ghost use Rattle.apei_space.specs.RamState.{RamState};
ghost use Rattle.ghes_ack.specs.Machine.{Machine, started, submitted, is_idle};
ghost use Rattle.ghes_ack.specs.Maps.{HasAckBits, HasWindows, window, memory_started, memory_after, AreLeft};
ghost use Rattle.ghes_ack.specs.Elsewhere.{SameWhere, IsOffMap, IsOffBlock};
ghost use Rattle.ghes_ack.specs.Sides.{Stands, Turns, MakesTurns};
ghost use Rattle.ghes_ack.specs.Handovers.{StandsFor, IsTurned, AreTurned, fresh, over};
ghost use Rattle.ghes_ack.specs.Submissions.{refusal_of};

use crate::blocks::Blocks;
use crate::ends::{Ends, ReaderEnd, begin_with_register};
use crate::events::{Event, Side};
use crate::maps::HandoverMap;
use crate::submission::{SubmitError, check_block};
use crate::turns::{all_turns, piece_turn};
use apei_bytes::OutOfMemory;
use apei_space::Ram;
use std::alloc::Global;
use std::marker::Model;

/// Both sides of a handover, and the blocks that the firmware hands over. It may not be dropped: `end` spends it.
pub struct Handover {
    /// Always there between two calls.
    ends: Option<Ends>,
    blocks: Blocks,
}

impl Model for Handover {
    ghost use Rattle.ghes_ack.specs.Handovers.{HandoverState};
    ghost use Rattle.ghes_ack.specs.Sides.{view_of, AreConsistent};

    ghost Value = { HandoverState };

    ghost view = { λ handover. view_of handover.ends handover.blocks };

    ghost invariant = { λ handover. AreConsistent handover.ends handover.blocks };
}

impl Handover {
    /// Begins a handover, with room for 66 blocks: 64 that wait, the one at work and the one taken last. No other call
    /// takes memory.
    pub fn new(alloc: Global, map: HandoverMap, ram: &mut Ram) -> Result<Handover, OutOfMemory>
        requires windows { HasWindows map ram.old }
        requires bits { HasAckBits map }
        ensures fresh { IfOk result (λ handover. handover ≡ fresh map) }
        ensures stands { IfOk result (λ handover. StandsFor handover ram.new (started (window map ram.old))) }
        ensures memory { OnOk result (ram.new ≡ memory_started map ram.old) }
        ensures elsewhere { OnOk result (SameWhere (IsOffMap map) ram.old ram.new) }
        ensures refused { OnErr result (ram.new ≡ ram.old) }
    {
        let blocks = Blocks::new(alloc, map)?;
        let ends = Ends::at_start(begin_with_register(&map, ram));
        Ok(Handover {
            ends: Some(ends),
            blocks,
        })
    }

    /// Takes a block over, and answers how many wait then.
    pub fn submit(&mut self, block: &[u8]) -> Result<u32, SubmitError>
        ensures added { OnOk result (self.new ≡ record self.old { waiting = self.old.waiting ++ block.now ∷ [] }) }
        ensures number { IfOk result (λ waiting. waiting ≡ length self.new.waiting) }
        ensures stands { OnOk result ((ram : RamState) (m : Machine) → StandsFor self.old ram m
            → StandsFor self.new ram (submitted m block.now)) }
        ensures exact { let refused = refusal_of self.old.map.len block.now (length self.old.waiting)
            in MatchResult result (λ _. refused ≡ None) (λ error. refused ≡ Some error) }
        ensures refused { OnErr result (self.new ≡ self.old) }
    {
        if let Err(error) = check_block(block, self.blocks.map.len, self.blocks.waiting.len()) {
            return Err(error);
        }
        self.blocks.add(block);
        Ok(self.blocks.waiting.len() as u32)
    }

    /// One turn of a side, over the memory that it was begun with. Between two turns others may write anything but its three
    /// windows.
    pub fn turn(&mut self, side: Side, ram: &mut Ram) -> Event
        requires { Stands self.old ram.old }
        ensures turned { (m : Machine) → StandsFor self.old ram.old m → IsTurned side result self.new ram.new m }
        ensures memory { ram.new ≡ memory_after self.old.map result ram.old (window self.old.map ram.new) }
        ensures elsewhere { SameWhere (IsOffBlock self.old.map) ram.old ram.new }
        ensures map { self.new.map ≡ self.old.map }
    {
        if let Some(event) = self.move_piece(side, ram) {
            return event;
        }
        let mut events = [Event::Idle; 1];
        self.make_turns(side, &mut events, ram);
        events[0]
    }

    /// As many turns of a side as there are places for their events, over the memory that it was begun with.
    pub fn turns(&mut self, side: Side, events: &mut [Event], ram: &mut Ram)
        requires { Stands self.old ram.old }
        ensures turned { (m : Machine) → StandsFor self.old ram.old m
            → AreTurned side (length events.old) events.new self.new ram.new m }
        ensures memory { AreLeft self.old.map events.new ram.old ram.new }
        ensures elsewhere { SameWhere (IsOffBlock self.old.map) ram.old ram.new }
        ensures map { self.new.map ≡ self.old.map }
    {
        self.make_turns(side, events, ram);
    }

    /// A turn that moves one piece, made in place; `None` where the turn is another one, and nothing is done then.
    fn move_piece(&mut self, side: Side, ram: &mut Ram) -> Option<Event>
        requires { Stands self.old ram.old }
        ensures { MatchOption result ((self.new ≡ self.old) × (ram.new ≡ ram.old)) (λ event. (m : Machine)
            → StandsFor self.old ram.old m → Turns side event (over self.old ram.old) (over self.new ram.new) m) }
    {
        match &self.ends {
            Some(ends) => piece_turn(side, ends, &mut self.blocks, ram),
            None => None,
        }
    }

    /// As many turns of a side as there are places for their events. Both sides are taken out and put back.
    fn make_turns(&mut self, side: Side, events: &mut [Event], ram: &mut Ram)
        requires { Stands self.old ram.old }
        ensures { (m : Machine) → StandsFor self.old ram.old m
            → MakesTurns side events.new (over self.old ram.old) (over self.new ram.new) m }
    {
        let Some(ends) = self.ends.take() else {
            unreachable!();
        };
        let next = all_turns(side, ends, &mut self.blocks, events, ram);
        next.put_back(&mut self.ends);
    }

    /// The block taken last since the start, empty where none was.
    pub fn taken(&self) -> &[u8]
        ensures { result.now ≡ self.now.last }
    {
        &self.blocks.last
    }

    /// Whether the reader neither reads a block nor has still to acknowledge one.
    pub fn reader_idle(&self) -> bool
        ensures { result ≡ is_idle self.now.situation }
    {
        match &self.ends {
            Some(ends) => matches!(ends.reader, ReaderEnd::Looks(_)),
            None => true,
        }
    }

    /// Begins anew: every block is forgotten, and the window's other bytes stay.
    pub fn restart(&mut self, ram: &mut Ram)
        requires { HasWindows self.old.map ram.old }
        ensures fresh { self.new ≡ fresh self.old.map }
        ensures stands { StandsFor self.new ram.new (started (window self.old.map ram.old)) }
        ensures memory { ram.new ≡ memory_started self.old.map ram.old }
        ensures elsewhere { SameWhere (IsOffMap self.old.map) ram.old ram.new }
    {
        if let Some(ends) = self.ends.take() {
            ends.end();
        }
        self.blocks.forget();
        let ends = Ends::at_start(begin_with_register(&self.blocks.map, ram));
        ends.put_back(&mut self.ends);
    }

    /// Spends the handover, in any situation.
    pub fn end(self) {
        let Handover { ends, blocks: _ } = self;
        if let Some(ends) = ends {
            ends.end();
        }
    }
}
