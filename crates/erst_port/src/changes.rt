// The changes that the medium has to make.
ghost use Rattle.std.specs.Prelude.{◌≡◌, ◌↔◌, ◌+◌, ◌-◌, ◌^◌, ◌<◌, ◌≤◌, length, IsTrue, IfSome, MatchOption};
ghost use Rattle.erst_port.specs.Dues.{IsDue};
ghost use Rattle.erst_port.specs.Parts.{next_made, size_at};
ghost use Rattle.erst_port.specs.PortState.{flash_of, IsMade};
ghost use Rattle.erst_port.specs.Changes.{IsDueOn, NotesMade};

use crate::Due;
use crate::acting::steps;
use crate::errors::NotDue;
use crate::parts::{Made, part_size};
use crate::port::Port;
use flash_model::Flash;

impl Port {
    /// Whether the medium has a change to make.
    pub fn is_due(&self) -> bool
        ensures { IsTrue result ↔ (IsMade self.now → ⊥) }
    {
        self.made.changes != self.device.store().flash().steps()
    }

    /// The part of a change that the medium has to make next, at its offset in the medium: a sector to erase, or bytes to program in one page of
    /// 256 bytes.
    pub fn next_due(&self) -> Option<Due<'_>>
        ensures { MatchOption result (IsMade self.now) (λ due. IsDueOn self.now due.kind due.at due.bytes.now) }
    {
        let whole = self.whole_due()?;
        let start = self.origin + whole.at;
        let begun = self.made.bytes;
        let end = begun + part_size(start, whole.bytes.len(), begun);
        Some(Due {
            kind: whole.kind,
            at: start + begun,
            bytes: &whole.bytes[begun..end],
        })
    }

    // The change whose part is due, all of it, at its place in the flash.
    fn whole_due(&self) -> Option<Due<'_>>
        ensures due { MatchOption result (IsMade self.now) (λ due. IsDue (flash_of self.now).sector_size
            (flash_of self.now).told self.now.made.changes due.kind due.at due.bytes.now) }
        ensures within { IfSome result (λ due. due.at + length due.bytes.now < 2 ^ 63) }
        ensures begun { IfSome result (λ due. self.now.made.bytes ≤ length due.bytes.now) }
        ensures near { self.now.origin ≤ 32768 }
    {
        self.device.store().flash().change_at(self.made.changes)
    }

    /// Notes that the medium has made it.
    pub fn note_made(&mut self) -> Result<(), NotDue>
        ensures { NotesMade self.old result self.new }
    {
        if self.made.changes == steps(&self.device) {
            return Err(NotDue);
        }
        self.made = self.behind_due();
        Ok(())
    }

    // What the medium has made behind the part that is due.
    fn behind_due(&self) -> Made
        requires due { self.now.made.changes < (flash_of self.now).steps }
        requires countable { self.now.made.changes < 2 ^ 64 - 1 }
        ensures value { result ≡ next_made self.now.origin (flash_of self.now).told self.now.made }
        ensures grows { self.now.made.changes ≤ result.changes }
        ensures behind { result.changes ≤ (flash_of self.now).steps }
        ensures begun { 0 < result.bytes → (result.changes < (flash_of self.now).steps)
            × (result.bytes < size_at (flash_of self.now).told result.changes) }
    {
        let Some(whole) = self.whole_due() else {
            unreachable!()
        };
        let size = whole.bytes.len();
        let start = self.origin + whole.at;
        self.made
            .behind(part_size(start, size, self.made.bytes), size)
    }

    /// Each change of the flash so far is told. It does nothing.
    pub fn changes_are_counted(&self)
        ensures { length (flash_of self.now).told.past ≡ (flash_of self.now).steps }
    {
        let _ = steps(&self.device);
    }
}
