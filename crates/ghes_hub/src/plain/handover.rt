// Both sides of a plain handover.
ghost use Rattle.std.specs.Prelude.{◌≡◌, ◌∷◌, ◌++◌, [], length, IfOk, OnOk, OnErr, MatchResult, Some, None};
ghost use Rattle.apei_space.specs.RamState.{RamState};
ghost use Rattle.ghes_ack.specs.Machine.{Machine, started, submitted};
ghost use Rattle.ghes_ack.specs.Windows.{block_bytes, HasAddressed};
ghost use Rattle.ghes_ack.specs.Submissions.{refusal_of};
ghost use Rattle.ghes_hub.specs.Plain.{PlainStands, plain_started};
ghost use Rattle.ghes_ack.specs.Handovers.{fresh, over};
ghost use Rattle.ghes_hub.specs.PlainSides.{Turns};

use crate::plain::map::PlainMap;
use crate::plain::turns::one_turn;
use apei_bytes::OutOfMemory;
use apei_space::Ram;
use ghes_ack::{Blocks, Ends, Event, Side, SubmitError, check_block};
use std::alloc::Global;
use std::marker::Model;

/// Both sides of a plain handover, and the blocks that the firmware hands over. It may not be dropped: `end` spends it.
pub struct PlainHandover {
    /// Always there between two calls.
    ends: Option<Ends>,
    blocks: Blocks<PlainMap>,
}

impl Model for PlainHandover {
    ghost use Rattle.ghes_hub.specs.Plain.{PlainState};
    ghost use Rattle.ghes_hub.specs.PlainSides.{AreConsistent};
    ghost use Rattle.ghes_ack.specs.Sides.{view_of};

    ghost Value = { PlainState };

    ghost view = { λ handover. view_of handover.ends handover.blocks };

    ghost invariant = { λ handover. AreConsistent handover.ends handover.blocks };
}

impl PlainHandover {
    /// Begins a handover, with room for 66 blocks. No other call takes memory.
    pub fn new(alloc: Global, map: PlainMap, ram: &mut Ram) -> Result<PlainHandover, OutOfMemory>
        requires { HasAddressed map.status map.window ram.old }
        ensures fresh { IfOk result (λ handover. handover ≡ fresh map) }
        ensures stands { IfOk result (λ handover. PlainStands handover ram.new (started (block_bytes map.window ram.old))) }
        ensures memory { OnOk result (ram.new ≡ plain_started map ram.old) }
        ensures refused { OnErr result (ram.new ≡ ram.old) }
    {
        let blocks = Blocks::new(alloc, map)?;
        let ends = Ends::at_start(map.begin(ram));
        Ok(PlainHandover {
            ends: Some(ends),
            blocks,
        })
    }

    /// Takes a block over, and answers how many wait then.
    pub fn submit(&mut self, block: &[u8]) -> Result<u32, SubmitError>
        ensures added { OnOk result (self.new ≡ record self.old { waiting = self.old.waiting ++ block.now ∷ [] }) }
        ensures number { IfOk result (λ waiting. waiting ≡ length self.new.waiting) }
        ensures stands { OnOk result ((ram : RamState) (m : Machine) → PlainStands self.old ram m
            → PlainStands self.new ram (submitted m block.now)) }
        ensures exact { MatchResult result
            (λ _. refusal_of self.old.map.window.len block.now (length self.old.waiting) ≡ None)
            (λ error. refusal_of self.old.map.window.len block.now (length self.old.waiting) ≡ Some error) }
        ensures refused { OnErr result (self.new ≡ self.old) }
    {
        if let Err(error) = check_block(
            block,
            self.blocks.map.window.len,
            self.blocks.waiting.len(),
        ) {
            return Err(error);
        }
        self.blocks.add(block);
        Ok(self.blocks.waiting.len() as u32)
    }

    /// One turn of a side, over the memory that it was begun with.
    pub fn turn(&mut self, side: Side, ram: &mut Ram) -> Event
        requires { (m : Machine) × PlainStands self.old ram.old m }
        ensures turned { (m : Machine) → PlainStands self.old ram.old m
            → Turns side result (over self.old ram.old) (over self.new ram.new) m }
    {
        let Some(ends) = self.ends.take() else {
            unreachable!();
        };
        let (next, event) = one_turn(side, ends, &mut self.blocks, ram);
        next.put_back(&mut self.ends);
        event
    }

    /// The block taken last since the start, empty where none was.
    pub fn taken(&self) -> &[u8]
        ensures { result.now ≡ self.now.last }
    {
        &self.blocks.last
    }

    /// Spends the handover, in any situation.
    pub fn end(self) {
        let PlainHandover { ends, blocks: _ } = self;
        if let Some(ends) = ends {
            ends.end();
        }
    }
}
