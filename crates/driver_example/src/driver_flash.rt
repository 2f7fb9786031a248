// The driver as the flash that a store works on.
ghost use Rattle.std.specs.Prelude.{◌≡◌, ◌+◌, ◌-◌, ◌*◌, ◌^◌, ◌<◌, ◌≤◌, length, replicate, IsOk, IsErr, IsTrue, OnOk, OnErr, ◌↔◌};
ghost use Rattle.base_model.specs.Bytes.{part, put_at};
ghost use Rattle.base_model.specs.Faults.{HasCause};
ghost use Rattle.driver_example.specs.Wear.{erased_once_more};
ghost use Rattle.base_model.specs.Flash.{OnlyReads, AsksChange, next_count};

use crate::driver::Driver;
use flash_model::{Flash, FlashFailed, next_count};

/// The driver, with the counts that a store reads: the changes that were asked for, the reads, the calls that failed, and the
/// restarts.
#[derive(Debug, Drop)]
pub struct DriverFlash {
    pub driver: Driver,
    steps: u64,
    reads: u64,
    faults: u64,
    restarts: u64,
    // Whether the last change failed.
    failed: bool,
}

impl DriverFlash {
    /// The flash of a driver, before its first call.
    pub fn new(driver: Driver) -> DriverFlash
        ensures driver { result.driver ≡ driver }
        ensures steps { result.steps ≡ 0 }
        ensures reads { result.reads ≡ 0 }
        ensures faults { result.faults ≡ 0 }
        ensures restarts { result.restarts ≡ 0 }
    {
        DriverFlash {
            driver,
            steps: 0,
            reads: 0,
            faults: 0,
            restarts: 0,
            failed: false,
        }
    }

    // Counts a change, which is refused when no more can be counted.
    fn count_change(&mut self) -> Result<(), FlashFailed>
        ensures driver { self.new.driver ≡ self.old.driver }
        ensures reads { self.new.reads ≡ self.old.reads }
        ensures restarts { self.new.restarts ≡ self.old.restarts }
        ensures steps { self.new.steps ≡ next_count self.old.steps }
        ensures failed { IsTrue self.new.failed ↔ IsErr result }
        ensures done { OnOk result (self.new.steps ≡ self.old.steps + 1) }
        ensures cause { HasCause self.old.faults self.new.faults result }
        ensures once { OnErr result (self.new.faults ≡ next_count self.old.faults) }
    {
        self.failed = self.steps == u64::MAX;
        self.steps = next_count(self.steps);
        if !self.failed {
            return Ok(());
        }
        self.faults = next_count(self.faults);
        Err(FlashFailed)
    }
}

impl Flash for DriverFlash {
    ghost use Rattle.driver_example.specs.States.{state_of};

    ghost tells = { ⊥ };

    ghost state = { state_of };

    ghost read_fails = { λ _. ⊥ };

    ghost change_fails = { λ _ flash. IsTrue flash.failed };

    fn size(&self) -> u64 {
        self.driver.bytes.len() as u64
    }

    fn sector_size(&self) -> u32 {
        self.driver.sector
    }

    fn read(&mut self, at: u64, buf: &mut [u8]) -> Result<(), FlashFailed>
        requires { at + length buf.old ≤ (state_of self.old).size }
        ensures bytes { OnOk result (buf.new ≡ part self.old.driver.bytes.items at (length buf.old)) }
        ensures held { self.new.driver ≡ self.old.driver }
        ensures stays { OnlyReads ⊥ 1 (state_of self.old) (state_of self.new) result }
        ensures counted { self.new.reads ≡ next_count self.old.reads }
        ensures done { IsOk result }
    {
        self.reads = next_count(self.reads);
        self.driver.read(at as usize, buf);
        Ok(())
    }

    fn program(&mut self, at: u64, bytes: &[u8]) -> Result<(), FlashFailed>
        requires some { 0 < length bytes.now }
        requires within { at + length bytes.now ≤ (state_of self.old).size }
        ensures bytes { OnOk result (self.new.driver.bytes.items ≡ put_at self.old.driver.bytes.items at bytes.now) }
        ensures erases { self.new.driver.erases ≡ self.old.driver.erases }
        ensures change { AsksChange ⊥ at (length bytes.now) (state_of self.old) (state_of self.new) result }
        ensures fails { IsErr result ↔ IsTrue self.new.failed }
        ensures full { self.old.steps ≡ 2 ^ 64 - 1 → self.new.driver ≡ self.old.driver }
    {
        self.count_change()?;
        self.driver.program(at as usize, bytes);
        Ok(())
    }

    fn erase(&mut self, sector: u32) -> Result<(), FlashFailed>
        requires { sector * self.old.driver.sector + self.old.driver.sector ≤ (state_of self.old).size }
        ensures bytes { OnOk result (self.new.driver.bytes.items
            ≡ put_at self.old.driver.bytes.items (sector * self.old.driver.sector)
            (replicate self.old.driver.sector 0xFF)) }
        ensures erases { OnOk result (self.new.driver.erases.items
            ≡ erased_once_more self.old.driver.erases.items sector) }
        ensures change { AsksChange ⊥ (sector * self.old.driver.sector) self.old.driver.sector (state_of self.old)
            (state_of self.new) result }
        ensures fails { IsErr result ↔ IsTrue self.new.failed }
        ensures full { self.old.steps ≡ 2 ^ 64 - 1 → self.new.driver ≡ self.old.driver }
    {
        self.count_change()?;
        self.driver.erase(sector);
        Ok(())
    }

    fn steps(&self) -> u64 {
        self.steps
    }

    fn restart(&mut self) {
        self.restarts = next_count(self.restarts);
    }

    ghost sized = { λ flash tells. absurd tells };

    ghost counted = { λ flash tells. absurd tells };
}
