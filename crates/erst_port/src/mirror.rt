// The flash.
ghost use Rattle.std.specs.Prelude.{◌≡◌, ◌↔◌, ◌+◌, ◌-◌, ◌*◌, ◌^◌, ◌<◌, ◌≤◌, ◌++◌, [], ◌∷◌, length, true, IfOk, IsErr, IfSome, IsSome, OnOk, OnErr};
ghost use Rattle.base_model.specs.Bytes.{part, put_at, SameOutside};
ghost use Rattle.base_model.specs.Faults.{HasCause};
ghost use Rattle.base_model.specs.Flash.{next_count};
ghost use Rattle.erst_port.specs.Contents.{bytes_of, IsAsked};
ghost use Rattle.erst_port.specs.Dues.{IsDue, IsLogged, log_room};
ghost use Rattle.erst_port.specs.Logs.{AreEntries, IsLast, IsFilled};
ghost use Rattle.flash_model.specs.Spans.{AreErasedBut};

use crate::content::Content;
use crate::due::{Due, Kind};
use crate::log::{Log, Range, log_room};
use flash_model::spans::{Span, all_bytes};
use flash_model::{Before, Flash, FlashFailed, Past, copy_range, next_count};
use std::alloc::{AllocError, Global};

/// Flash in memory that tells which changes it made: the first ones, as many as its log has room for, and the last one.
///
/// It takes all the memory that it will have when it is made, and fails nothing until no change can be counted.
#[derive(Drop)]
pub struct MirrorFlash {
    image: Vec<u8>,
    sector: u32,
    spans: Vec<Span>,
    log: Log,
    last: Range,
    past: Past,
    steps: u64,
    reads: u64,
    faults: u64,
    restarts: u64,
    ghost counted: { length past.changes ≡ steps },
    ghost sectors: { length spans.items * sector ≤ length image.items },
    ghost erased: { AreErasedBut spans.items sector image.items },
    ghost log_room: { log.room ≡ log_room (length image.items) },
    ghost log_told: { AreEntries sector (record { past = past.changes; image = image.items }) log.entries.items log.bytes.items },
    ghost log_filled: { IsFilled (length image.items) past.changes log.entries.items log.bytes.items },
    ghost failed_last: { 0 < faults → steps ≡ 2 ^ 64 - 1 },
    ghost last_told: { IsLast sector (record { past = past.changes; image = image.items }) last },
}

// No change.
const NOTHING: Range = Range {
    kind: Kind::Program,
    at: 0,
    len: 0,
};

// The bytes of a range.
#[tactic(auto, unfolding(base_model::specs::Bytes::part))]
fn bytes_at(image: &[u8], at: usize, len: usize) -> &[u8]
    requires { at + len ≤ length image.now }
    ensures { result.now ≡ part image.now at len }
{
    &image[at..at + len]
}

impl MirrorFlash {
    ghost use Rattle.erst_port.specs.States.{state_of, first_state};

    /// A flash with these bytes, in sectors of `sector` bytes.
    pub fn new(alloc: Global, sector: u32, image: Vec<u8>) -> Result<MirrorFlash, AllocError>
        ensures made { IfOk result (λ flash. state_of flash ≡ first_state image.items sector) }
        ensures tells { ⟦<MirrorFlash as Flash>⟧.tells }
    {
        let spans = all_bytes(alloc, image.len(), sector as usize)?;
        let log = Log::new(alloc, log_room(image.len()))?;
        Ok(MirrorFlash {
            image,
            sector,
            spans,
            log,
            last: NOTHING,
            past: Past::new(),
            steps: 0,
            reads: 0,
            faults: 0,
            restarts: 0,
        })
    }

    /// The bytes as they stand after every change.
    pub fn image(&self) -> &[u8]
        ensures { result.now ≡ (state_of self.now).told.image }
    {
        &self.image
    }

    /// It failed nothing as long as a change could be counted. It does nothing.
    pub fn fails_last(&self)
        ensures { 0 < (state_of self.now).faults → (state_of self.now).steps ≡ 2 ^ 64 - 1 }
    {}

    /// Change number `step`, from 0, where it is in the log or is the last one.
    pub fn change_at(&self, step: u64) -> Option<Due<'_>>
        ensures told { IfSome result (λ due. IsDue (state_of self.now).sector_size (state_of self.now).told step
            due.kind due.at due.bytes.now) }
        ensures last { step + 1 ≡ (state_of self.now).steps → IsSome result }
        ensures logged { IsLogged (state_of self.now) → step < (state_of self.now).steps → IsSome result }
    {
        if step < self.steps && self.steps - step == 1 {
            return Some(self.last_change());
        }
        self.logged_change(step)
    }

    // Change number `step`, where it is in the log.
    fn logged_change(&self, step: u64) -> Option<Due<'_>>
        ensures told { IfSome result (λ due. IsDue (state_of self.now).sector_size (state_of self.now).told step
            due.kind due.at due.bytes.now) }
        ensures known { step < length self.now.log.entries.items → IsSome result }
    {
        let Some(entry) = self.log.entry(step) else {
            return None;
        };
        let bytes = bytes_at(self.log.bytes(), entry.start, entry.range.len);
        Some(Due {
            kind: entry.range.kind,
            at: entry.range.at,
            bytes,
        })
    }

    // The last change.
    fn last_change(&self) -> Due<'_>
        requires { 0 < self.now.steps }
        ensures { IsDue self.now.sector (state_of self.now).told (self.now.steps - 1) result.kind result.at
            result.bytes.now }
    {
        Due {
            kind: self.last.kind,
            at: self.last.at,
            bytes: bytes_at(&self.image, self.last.at, self.last.len),
        }
    }

    // Makes a change, counts it, and keeps what it is.
    fn change(&mut self, at: usize, content: Content<'_>) -> Result<(), FlashFailed>
        requires within { at + length (bytes_of content) ≤ length self.old.image.items }
        requires asked { IsAsked self.old.sector self.old.image.items at content }
        ensures made { OnOk result (self.new.image.items ≡ put_at self.old.image.items at (bytes_of content.entry)) }
        ensures rest { SameOutside at (length (bytes_of content.entry)) self.old.image.items self.new.image.items }
        ensures noted { OnOk result (self.new.past.changes
            ≡ self.old.past.changes ++ (record {
              before = self.old.image.items;
              at = at;
              len = length
                  (bytes_of content.entry);
            }) ∷ []) }
        ensures refused { OnErr result ((state_of self.new).told ≡ (state_of self.old).told) }
        ensures size { length self.new.image.items ≡ length self.old.image.items }
        ensures sector { self.new.sector ≡ self.old.sector }
        ensures reads { self.new.reads ≡ self.old.reads }
        ensures restarts { self.new.restarts ≡ self.old.restarts }
        ensures steps { self.new.steps ≡ next_count self.old.steps }
        ensures fails { IsErr result ↔ (self.old.steps ≡ 2 ^ 64 - 1) }
        ensures done { OnOk result (self.new.steps ≡ self.old.steps + 1) }
        ensures cause { HasCause self.old.faults self.new.faults result }
        ensures once { OnErr result (self.new.faults ≡ next_count self.old.faults) }
    {
        if self.steps == u64::MAX {
            self.faults = next_count(self.faults);
            return Err(FlashFailed);
        }
        let range = content.range(at);
        let past = self.past.then(&Before {
            image: &self.image,
            at,
            len: range.len,
        });
        content.put(&mut self.image, &mut self.spans, self.sector as usize, at);
        self.log
            .enter(self.steps, range, bytes_at(&self.image, at, range.len));
        self.past = past;
        self.last = range;
        self.steps += 1;
        Ok(())
    }
}

impl Flash for MirrorFlash {
    ghost use Rattle.std.specs.Prelude.{◌≡◌, ◌-◌, ◌^◌, refl};
    ghost use Rattle.erst_port.specs.States.{state_of};

    ghost tells = { Unit {0} };

    ghost state = { state_of };

    ghost read_fails = { λ _. ⊥ };

    ghost change_fails = { λ flash _. flash.steps ≡ 2 ^ 64 - 1 };

    fn size(&self) -> u64 {
        self.image.len() as u64
    }

    fn sector_size(&self) -> u32 {
        self.sector
    }

    fn read(&mut self, at: u64, buf: &mut [u8]) -> Result<(), FlashFailed> {
        self.reads = next_count(self.reads);
        copy_range(&self.image, at as usize, buf);
        Ok(())
    }

    fn program(&mut self, at: u64, bytes: &[u8]) -> Result<(), FlashFailed> {
        self.change(at as usize, Content::Program(bytes))
    }

    fn erase(&mut self, sector: u32) -> Result<(), FlashFailed> {
        let len = self.sector as usize;
        self.change(sector as usize * len, Content::Erase(len))
    }

    fn steps(&self) -> u64 {
        self.steps
    }

    fn restart(&mut self) {
        self.restarts = next_count(self.restarts);
    }

    ghost sized = { λ flash _. refl };

    ghost counted = { λ flash _. flash.counted };
}
