// A flash in memory.
ghost use Rattle.std.specs.Prelude.{true, ◌≡◌, ◌↔◌, ℕ, ◌+◌, ◌*◌, ◌^◌, ◌<◌, ◌≤◌, List, [], ◌∷◌, ◌++◌, length, replicate, Contains, Result, OnOk, OnErr, is_err, IsErr, IsTrue};
ghost use Rattle.base_model.specs.Bytes.{part, put_at};
ghost use Rattle.flash_model.specs.Spans.{AreErasedBut};
ghost use Rattle.base_model.specs.Flash.{FlashState, OnlyReads, AsksChange, IsErased, restart, next_count, unpowered_after};

use crate::content::Content;
use crate::counts::next_count;
use crate::past::{Before, Past};
use crate::power::Power;
use crate::spans::{Span, all_bytes};
use crate::{Cut, Flash, FlashFailed, Tear};
use std::alloc::Global;
use std::marker::Model;

/// A flash in memory that fails where it is told to.
///
/// A change that is asked for while power is lost fails, changes nothing, and counts. From a cut on every call fails until
/// `restart`. No change asks for memory: the images before it exist only in proofs.
#[derive(Drop)]
pub struct SimFlash {
    sector: u32,
    image: Vec<u8>,
    // Of each sector, which bytes may be others than ones; of none where there was no memory for it.
    spans: Vec<Span>,
    past: Past,
    power: Power,
    failing: Vec<(u64, Tear)>,
    failing_reads: Vec<u64>,
    steps: u64,
    reads: u64,
    faults: u64,
    // How many calls for a change or a read found no power.
    unpowered: u64,
    restarts: u64,
}

impl Model for SimFlash {
    ghost use Rattle.std.specs.Prelude.{◌≡◌, ◌≤◌, ◌*◌, length};
    ghost use Rattle.flash_model.specs.Spans.{AreErasedBut};
    ghost use Rattle.flash_model.specs.Simulation.{Simulation};

    ghost Value = { Simulation };

    ghost view = { λ flash. record {
      told = record {
        past = flash.past.changes;
        image = flash.image.items;
      };
      sector_size = flash.sector;
      power = flash.power;
      failing = flash.failing.items;
      failing_reads = flash.failing_reads.items;
      reads = flash.reads;
      faults = flash.faults;
      unpowered = flash.unpowered;
      restarts = flash.restarts;
    } };

    ghost invariant = { λ flash. (length flash.past.changes ≡ flash.steps)
        × (length flash.spans.items * flash.sector ≤ length flash.image.items)
        × AreErasedBut flash.spans.items flash.sector flash.image.items };
}

impl SimFlash {
    ghost use Rattle.flash_model.specs.Content.{bytes_of, IsWhole};
    ghost use Rattle.flash_model.specs.Simulation.{first_power, steps_of, fate_of, after_change, ChangeFails};

    /// A flash with these bytes, with sectors of `sector` bytes from the first one on. Bytes behind the last whole sector
    /// are never erased. Power is lost in the change of `cut`. The changes numbered in `failing`, from 0, fail and leave
    /// what is said there, by the first that has the number; where `cut` is at the same step, its tear counts. The
    /// reads numbered in `failing_reads`, from 0, fail.
    pub fn new(
        alloc: Global,
        sector: u32,
        image: Vec<u8>,
        cut: Option<Cut>,
        failing: Vec<(u64, Tear)>,
        failing_reads: Vec<u64>,
    ) -> SimFlash
        ensures made { result ≡ record {
          told = record { past = []; image = image.items };
          sector_size = sector;
          power = first_power cut;
          failing = failing.items;
          failing_reads = failing_reads.items;
          reads = 0;
          faults = 0;
          unpowered = 0;
          restarts = 0;
        } }
        ensures tells { ⟦<SimFlash as Flash>⟧.tells }
    {
        let spans = known_of(alloc, image.len(), sector as usize);
        SimFlash {
            sector,
            image,
            spans,
            past: Past::new(),
            power: Power::new(cut),
            failing,
            failing_reads,
            steps: 0,
            reads: 0,
            faults: 0,
            unpowered: 0,
            restarts: 0,
        }
    }

    /// The image.
    pub fn image(&self) -> &[u8]
        ensures { result.now ≡ self.now.told.image }
    {
        &self.image
    }

    // Makes one change of the range that the content fills from `at` on.
    fn change(&mut self, at: usize, content: Content) -> Result<(), FlashFailed>
        requires within { at + length (bytes_of content) ≤ length self.old.told.image }
        requires whole { IsWhole self.old.sector_size at content }
        ensures after { self.new ≡ after_change (fate_of self.old) self.old at (bytes_of content.entry) }
        ensures fails { IsErr result ↔ ChangeFails self.old }
        ensures counted { steps_of self.new ≡ next_count (steps_of self.old) }
        ensures faults { self.old.faults < 2 ^ 64 }
    {
        if self.steps == u64::MAX {
            self.faults = next_count(self.faults);
            self.unpowered = self.power.count_unpowered(self.unpowered);
            return Err(FlashFailed);
        }
        if self.power.is_lost() {
            let past = self.past.then(&Before {
                image: &self.image,
                at: 0,
                len: 0,
            });
            self.past = past;
            self.steps += 1;
            self.faults = next_count(self.faults);
            self.unpowered = next_count(self.unpowered);
            return Err(FlashFailed);
        }
        let step = self.steps;
        let tear = self.power.tear_at(&self.failing, step);
        let past = self.past.then(&Before {
            image: &self.image,
            at,
            len: content.len(),
        });
        content.leave(
            tear,
            &mut self.image,
            &mut self.spans,
            self.sector as usize,
            at,
        );
        self.past = past;
        self.power = self.power.after(step);
        self.steps += 1;
        if tear.is_some() {
            self.faults = next_count(self.faults);
            return Err(FlashFailed);
        }
        Ok(())
    }
}

// The spans of the sectors of so many bytes, of which nothing is known; none where there is no memory for them.
fn known_of(alloc: Global, size: usize, sector: usize) -> Vec<Span>
    ensures within { length result.items * sector ≤ size }
    ensures known { (image : List ℕ) → AreErasedBut result.items sector image }
{
    match all_bytes(alloc, size, sector) {
        Ok(spans) => spans,
        Err(_) => Vec::new(alloc),
    }
}

// Whether a list, which is mostly empty, has a number.
#[inline]
fn is_listed(numbers: &[u64], number: u64) -> bool
    ensures { IsTrue result ↔ Contains numbers.now number }
{
    !numbers.is_empty() && has_number(numbers, number)
}

#[inline(never)]
fn has_number(numbers: &[u64], number: u64) -> bool
    ensures { IsTrue result ↔ Contains numbers.now number }
{
    numbers.contains(&number)
}

impl Flash for SimFlash {
    ghost use Rattle.std.specs.Prelude.{refl};
    ghost use Rattle.flash_model.specs.Simulation.{state_of, fate_of, after_change, ReadFails, ChangeFails, after_read, power_restored};

    ghost tells = { Unit {0} };

    ghost state = { state_of };

    ghost read_fails = { ReadFails };

    ghost change_fails = { λ flash _. ChangeFails flash };

    fn size(&self) -> u64 {
        self.image.len() as u64
    }

    fn sector_size(&self) -> u32 {
        self.sector
    }

    #[inline(always)]
    fn read(&mut self, at: u64, buf: &mut [u8]) -> Result<(), FlashFailed>
        requires { at + length buf.old ≤ length self.old.told.image }
        ensures bytes { OnOk result (buf.new ≡ part self.old.told.image at (length buf.old)) }
        ensures stays { OnlyReads (Unit {0}) 1 (state_of self.old) (state_of self.new) result }
        ensures counted { self.new.reads ≡ next_count self.old.reads }
        ensures unpowered { self.new.unpowered ≡ unpowered_after (state_of self.old) }
        ensures fails { IsErr result ↔ ReadFails self.old }
        ensures after { self.new ≡ after_read (is_err result) self.old }
    {
        let fails = self.power.is_lost() || is_listed(&self.failing_reads, self.reads);
        self.reads = next_count(self.reads);
        if fails {
            self.faults = next_count(self.faults);
            self.unpowered = self.power.count_unpowered(self.unpowered);
            return Err(FlashFailed);
        }
        let at = at as usize;
        buf.copy_from_slice(&self.image[at..at + buf.len()]);
        Ok(())
    }

    fn program(&mut self, at: u64, bytes: &[u8]) -> Result<(), FlashFailed>
        requires some { 0 < length bytes.now }
        requires within { at + length bytes.now ≤ length self.old.told.image }
        requires erased { IsErased self.old.told.image at (length bytes.now) }
        ensures bytes { OnOk result (self.new.told.image ≡ put_at self.old.told.image at bytes.now) }
        ensures change { AsksChange (Unit {0}) at (length bytes.now) (state_of self.old) (state_of self.new) result }
        ensures fails { IsErr result ↔ ChangeFails self.old }
        ensures after { self.new ≡ after_change (fate_of self.old) self.old at bytes.now }
    {
        self.change(at as usize, Content::Bytes(bytes))
    }

    fn erase(&mut self, sector: u32) -> Result<(), FlashFailed>
        requires { sector * self.old.sector_size + self.old.sector_size ≤ length self.old.told.image }
        ensures bytes { OnOk result (self.new.told.image
            ≡ put_at self.old.told.image (sector * self.old.sector_size) (replicate self.old.sector_size 0xFF)) }
        ensures change { AsksChange (Unit {0})
            (sector * self.old.sector_size) self.old.sector_size (state_of self.old) (state_of self.new) result }
        ensures fails { IsErr result ↔ ChangeFails self.old }
        ensures after { self.new ≡ after_change (fate_of self.old) self.old (sector * self.old.sector_size)
            (replicate self.old.sector_size 0xFF) }
    {
        let len = self.sector as usize;
        self.change(sector as usize * len, Content::Erased { len })
    }

    fn steps(&self) -> u64 {
        self.steps
    }

    fn restart(&mut self)
        ensures same { state_of self.new ≡ restart (state_of self.old) }
        ensures power { self.new ≡ record self.old {
          power = power_restored self.old.power;
          restarts = next_count
              self.old.restarts;
        } }
    {
        self.power = self.power.restored();
        self.restarts = next_count(self.restarts);
    }

    ghost sized = { λ flash _. refl };

    ghost counted = { λ flash _. refl };
}
