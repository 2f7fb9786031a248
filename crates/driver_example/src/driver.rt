// A driver: flash in memory that counts the erases of each sector.
ghost use Rattle.std.specs.Prelude.{◌≡◌, ◌*◌, ◌+◌, ◌≤◌, length, replicate, IfOk};
ghost use Rattle.base_model.specs.Bytes.{part, put_at};
ghost use Rattle.driver_example.specs.Wear.{erased_once_more};

use flash_model::{copy_range, fill_range, put_range};
use std::alloc::{AllocError, Global};

/// Flash of sectors of so many bytes, with the count of the erases of each sector.
#[derive(Debug, Drop)]
pub struct Driver {
    pub bytes: Vec<u8>,
    pub erases: Vec<u32>,
    pub sector: u32,
}

const ERASED: u8 = 0xFF;

impl Driver {
    /// Erased flash of 8 sectors of 256 bytes.
    pub fn new(alloc: Global) -> Result<Driver, AllocError>
        ensures bytes { IfOk result (λ driver. driver.bytes.items ≡ replicate 2048 0xFF) }
        ensures erases { IfOk result (λ driver. driver.erases.items ≡ replicate 8 0) }
        ensures sector { IfOk result (λ driver. driver.sector ≡ 256) }
    {
        Ok(Driver {
            bytes: vec![in alloc; ERASED; 2048]?,
            erases: vec![in alloc; 0; 8]?,
            sector: 256,
        })
    }

    /// Reads the bytes from `at` on.
    pub fn read(&self, at: usize, buf: &mut [u8])
        requires { at + length buf.old ≤ length self.now.bytes.items }
        ensures { buf.new ≡ part self.now.bytes.items at (length buf.old) }
    {
        copy_range(&self.bytes, at, buf);
    }

    /// Programs erased bytes from `at` on.
    pub fn program(&mut self, at: usize, bytes: &[u8])
        requires { at + length bytes.now ≤ length self.old.bytes.items }
        ensures bytes { self.new.bytes.items ≡ put_at self.old.bytes.items at bytes.now }
        ensures size { length self.new.bytes.items ≡ length self.old.bytes.items }
        ensures erases { self.new.erases ≡ self.old.erases }
        ensures sector { self.new.sector ≡ self.old.sector }
    {
        put_range(&mut self.bytes, at, bytes);
    }

    /// Erases a sector, and counts that.
    pub fn erase(&mut self, sector: u32)
        requires { sector * self.old.sector + self.old.sector ≤ length self.old.bytes.items }
        ensures bytes { self.new.bytes.items ≡ put_at self.old.bytes.items (sector * self.old.sector)
            (replicate self.old.sector 0xFF) }
        ensures size { length self.new.bytes.items ≡ length self.old.bytes.items }
        ensures erases { self.new.erases.items ≡ erased_once_more self.old.erases.items sector }
        ensures sector { self.new.sector ≡ self.old.sector }
    {
        let len = self.sector as usize;
        fill_range(&mut self.bytes, sector as usize * len, len, ERASED);
        count_erase(&mut self.erases, sector as usize);
    }
}

// Counts an erase of a sector.
fn count_erase(erases: &mut [u32], sector: usize)
    ensures { erases.new ≡ erased_once_more erases.old sector }
{
    if sector < erases.len() {
        erases[sector] = erases[sector].saturating_add(1);
    }
}
