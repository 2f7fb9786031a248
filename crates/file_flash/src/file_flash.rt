// A flash in a file.
ghost use Rattle.std.specs.Prelude.{true, ◌≡◌, ◌↔◌, ◌+◌, ◌-◌, ◌*◌, ◌^◌, ◌<◌, ◌≤◌, length, replicate, OnOk, OnErr, IsErr, IsOk, IsTrue};
ghost use Rattle.base_model.specs.Faults.{HasCause};
ghost use Rattle.base_model.specs.Bytes.{part, put_at};
ghost use Rattle.base_model.specs.Flash.{OnlyReads, AsksChange, next_count};

use crate::image_file::open_or_make;
use crate::medium::Medium;
use flash_model::{Flash, FlashFailed, next_count};
use std::alloc::Global;

/// A flash in a file, which it holds in memory too.
///
/// The file is locked as long as the flash lives. Reads are answered from memory; each change is written to the file and
/// synced before it answers. Where a change fails, its range stays as the file then has it, and is stored once more; where
/// that fails too, so do all later calls.
#[derive(Drop)]
pub struct FileFlash {
    medium: Medium,
    sector: u32,
    steps: u64,
    reads: u64,
    faults: u64,
    restarts: u64,
    // Whether the last change failed.
    failed: bool,
}

impl FileFlash {
    ghost use Rattle.file_flash.specs.Mediums.{size_of, IsUnusable};
    ghost use Rattle.file_flash.specs.States.{state_of};

    /// The flash in the file at `path`, with sectors of `sector` bytes. A missing file is made with `size` bytes 0xFF, in a
    /// folder that takes hard links; it stands there only once it is whole.
    ///
    /// Where the file can't be opened, locked, read or made, or is no regular file, every call fails, and the flash has the
    /// size that was asked for. A file of another length is left alone: every call fails, and the flash has that length.
    pub fn attach(rt: &HostRuntime, alloc: Global, path: &str, sector: u32, size: u64) -> FileFlash
        ensures size { ¬ IsUnusable result.medium → (state_of result).size ≡ size }
        ensures sector { (state_of result).sector_size ≡ sector }
        ensures steps { (state_of result).steps ≡ 0 }
        ensures reads { (state_of result).reads ≡ 0 }
        ensures faults { (state_of result).faults ≡ 0 }
        ensures powered { (state_of result).powered ≡ true }
    {
        let medium = match open_or_make(rt, alloc, path, size) {
            Ok(medium) => medium,
            Err(_) => Medium::Unusable { size },
        };
        FileFlash {
            medium,
            sector,
            steps: 0,
            reads: 0,
            faults: 0,
            restarts: 0,
            failed: false,
        }
    }

    // Counts a change by whether it was done.
    fn count_change(&mut self, done: bool) -> Result<(), FlashFailed>
        ensures medium { self.new.medium ≡ self.old.medium }
        ensures sector { self.new.sector ≡ self.old.sector }
        ensures reads { self.new.reads ≡ self.old.reads }
        ensures restarts { self.new.restarts ≡ self.old.restarts }
        ensures steps { self.new.steps ≡ next_count self.old.steps }
        ensures failed { IsTrue self.new.failed ↔ IsErr result }
        ensures done { IsOk result ↔ IsTrue done }
        ensures cause { HasCause self.old.faults self.new.faults result }
        ensures once { OnErr result (self.new.faults ≡ next_count self.old.faults) }
    {
        self.steps = next_count(self.steps);
        self.failed = !done;
        if done {
            return Ok(());
        }
        self.faults = next_count(self.faults);
        Err(FlashFailed)
    }
}

impl Flash for FileFlash {
    ghost use Rattle.file_flash.specs.Mediums.{image_of, IsUnusable};
    ghost use Rattle.file_flash.specs.States.{state_of};

    ghost tells = { ⊥ };

    ghost state = { state_of };

    ghost read_fails = { λ flash. IsUnusable flash.medium };

    ghost change_fails = { λ _ flash. IsTrue flash.failed };

    fn size(&self) -> u64 {
        self.medium.size()
    }

    fn sector_size(&self) -> u32 {
        self.sector
    }

    fn read(&mut self, at: u64, buf: &mut [u8]) -> Result<(), FlashFailed>
        requires { at + length buf.old ≤ (state_of self.old).size }
        ensures bytes { OnOk result (buf.new ≡ part (image_of self.old.medium) at (length buf.old)) }
        ensures held { self.new.medium ≡ self.old.medium }
        ensures stays { OnlyReads ⊥ 1 (state_of self.old) (state_of self.new) result }
        ensures counted { self.new.reads ≡ next_count self.old.reads }
        ensures fails { IsErr result ↔ IsUnusable self.old.medium }
    {
        self.reads = next_count(self.reads);
        let outcome = self.medium.read(at as usize, buf);
        if outcome.is_err() {
            self.faults = next_count(self.faults);
        }
        outcome
    }

    fn program(&mut self, at: u64, bytes: &[u8]) -> Result<(), FlashFailed>
        requires some { 0 < length bytes.now }
        requires within { at + length bytes.now ≤ (state_of self.old).size }
        ensures bytes { OnOk result (image_of self.new.medium ≡ put_at (image_of self.old.medium) at bytes.now) }
        ensures change { AsksChange ⊥ at (length bytes.now) (state_of self.old) (state_of self.new) result }
        ensures fails { IsErr result ↔ IsTrue self.new.failed }
        ensures unusable { IsUnusable self.old.medium → IsErr result × IsUnusable self.new.medium }
        ensures full { self.old.steps ≡ 2 ^ 64 - 1 → self.new.medium ≡ self.old.medium }
    {
        let done = self.steps < u64::MAX && self.medium.program(at as usize, bytes).is_ok();
        self.count_change(done)
    }

    fn erase(&mut self, sector: u32) -> Result<(), FlashFailed>
        requires { sector * self.old.sector + self.old.sector ≤ (state_of self.old).size }
        ensures bytes { OnOk result (image_of self.new.medium
            ≡ put_at (image_of self.old.medium) (sector * self.old.sector) (replicate self.old.sector 0xFF)) }
        ensures change { AsksChange ⊥ (sector * self.old.sector) self.old.sector (state_of self.old)
            (state_of self.new) result }
        ensures fails { IsErr result ↔ IsTrue self.new.failed }
        ensures unusable { IsUnusable self.old.medium → IsErr result × IsUnusable self.new.medium }
        ensures full { self.old.steps ≡ 2 ^ 64 - 1 → self.new.medium ≡ self.old.medium }
    {
        let len = self.sector as usize;
        let at = sector as usize * len;
        let done = self.steps < u64::MAX && self.medium.erase(at, len).is_ok();
        self.count_change(done)
    }

    fn steps(&self) -> u64 {
        self.steps
    }

    fn restart(&mut self) {
        self.restarts = next_count(self.restarts);
    }

    ghost sized = { λ flash tells. absurd tells };

    ghost counted = { λ flash tells. absurd tells };
}
