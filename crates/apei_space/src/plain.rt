// Plain memory as a space.
ghost use Rattle.std.specs.Prelude.{◌≡◌, ℕ, ◌+◌, ◌*◌, ◌/◌, ◌^◌, ◌<◌, ◌≤◌, length, replicate, IfOk, IfSome};
ghost use Rattle.base_model.specs.Bytes.{number_at};
ghost use Rattle.apei_tables.specs.Access.{bits};
ghost use Rattle.apei_space.specs.Calls.{Call, Read, Write, Wait, Copy, ReadBytes, WriteBytes, HasReason};
ghost use Rattle.apei_space.specs.Windows.{total, AreApart};
ghost use Rattle.apei_space.specs.RamState.{RamState, FillsWindows, Allows, located, number_in, answer_of, changed, filled};

use crate::bytes::{copy_part, get_number, get_part, put_number, put_part};
use crate::faults::SpaceFault;
use crate::spaces::Space;
use crate::windows::{Table, Window, address, search, tabulate};
use apei_bytes::OutOfMemory;
use apei_tables::{Place, Width};
use std::alloc::Global;
use std::marker::Model;

/// Windows of plain bytes, in memory and in I/O. Its faults are `Unmapped` alone.
#[derive(Drop)]
pub struct Ram {
    windows: Vec<Window>,
    /// The windows in the order of their addresses.
    table: Table,
    /// The bytes of the windows, one window after another.
    bytes: Vec<u8>,
    waited: u64,
}

impl Model for Ram {
    ghost use Rattle.std.specs.Prelude.{◌≡◌, ◌<◌, ◌^◌, All, length};
    ghost use Rattle.apei_space.specs.RamState.{RamState};
    ghost use Rattle.apei_space.specs.Windows.{total, AreApart};
    ghost use Rattle.apei_space.specs.Stretches.{IsStretch};

    ghost Value = { RamState };

    ghost view = { λ r. record { windows = r.windows.items; bytes = r.bytes.items; waited = r.waited } };

    ghost invariant = { λ r. (total r.windows.items ≡ length r.bytes.items) × (length r.bytes.items < 2 ^ 63)
        × AreApart r.windows.items × All (IsStretch r.windows.items) r.table.stretches.items };
}

impl Ram {
    /// Memory of these windows, all bytes 0.
    pub fn new(alloc: Global, windows: &[Window]) -> Result<Ram, OutOfMemory>
        requires { AreApart windows.now }
        ensures { IfOk result (λ ram. ram ≡ record {
          windows = windows.now;
          bytes = replicate (total windows.now) 0;
          waited = 0;
        }) }
    {
        let Some(len) = total_of(windows) else {
            return Err(OutOfMemory);
        };
        let bytes = vec![in alloc; 0; len]?;
        let table = tabulate(alloc, windows)?;
        let windows = Vec::from_slice(alloc, windows)?;
        Ok(Ram {
            windows,
            table,
            bytes,
            waited: 0,
        })
    }

    /// The sum of all waits in microseconds, held at its last value.
    pub fn waited(&self) -> u64
        ensures { result ≡ self.now.waited }
    {
        self.waited
    }

    /// What `read` would answer.
    pub fn look(&self, at: Place, width: Width) -> Result<u64, SpaceFault>
        ensures value { result ≡ number_in (located self.now.windows at (bits width / 8)) self.now.bytes
            (bits width / 8) }
        ensures small { IfOk result (λ value. value < 2 ^ bits width) }
        ensures windows { FillsWindows self.now }
    {
        let start = self.locate(at, width.bytes())?;
        Ok(get_number(&self.bytes, start, width))
    }

    /// Keeps the bits `keep` of a number and sets the bits `set`, by one look-up of its place. It answers what stood there.
    pub fn change(
        &mut self,
        at: Place,
        width: Width,
        keep: u64,
        set: u64,
    ) -> Result<u64, SpaceFault>
        ensures value { result ≡ number_in (located self.old.windows at (bits width / 8)) self.old.bytes
            (bits width / 8) }
        ensures small { IfOk result (λ value. value < 2 ^ bits width) }
        ensures memory { self.new ≡ changed (located self.old.windows at (bits width / 8)) self.old (bits width / 8)
            keep set }
    {
        let start = self.locate(at, width.bytes())?;
        let value = get_number(&self.bytes, start, width);
        put_number(&mut self.bytes, start, width, value & keep | set);
        Ok(value)
    }

    /// What `read_bytes` would answer.
    pub fn look_bytes(&self, at: u64, out: &mut [u8]) -> Result<(), SpaceFault>
        ensures answer { result ≡ answer_of (located self.now.windows (Place.Memory at) (length out.old)) }
        ensures bytes { out.new ≡ filled (located self.now.windows (Place.Memory at)
            (length out.old)) self.now.bytes out.old }
        ensures windows { FillsWindows self.now }
    {
        let start = self.locate(Place::Memory(at), out.len())?;
        get_part(&self.bytes, start, out);
        Ok(())
    }

    /// Where the first of `n` bytes stands among all bytes.
    #[inline(always)]
    fn locate(&self, at: Place, n: usize) -> Result<usize, SpaceFault>
        ensures value { result ≡ located self.now.windows at n }
        ensures room { IfOk result (λ start. start + n ≤ length self.now.bytes) }
        ensures windows { FillsWindows self.now }
    {
        let windows = &self.windows;
        if n == 0 {
            return Ok(0);
        }
        let address = address(at);
        match search(&self.table, windows, at) {
            None => Err(SpaceFault::Unmapped { at: address }),
            Some((start, room)) => {
                if n <= room as usize {
                    Ok(start)
                } else {
                    Err(SpaceFault::Unmapped {
                        at: address + u64::from(room),
                    })
                }
            }
        }
    }
}

impl Space for Ram {
    ghost use Rattle.apei_space.specs.RamState.{RamState, Allows};
    ghost use Rattle.apei_space.specs.Reasons.{reasons};

    ghost State = { RamState };

    ghost state = { λ ram. ram };

    ghost allows = { Allows };

    ghost faults = { λ _. 0 };

    ghost reasons = { reasons };

    fn read(&mut self, at: Place, width: Width) -> Result<u64, SpaceFault> {
        self.look(at, width)
    }

    fn write(&mut self, at: Place, width: Width, value: u64) -> Result<(), SpaceFault> {
        let start = self.locate(at, width.bytes())?;
        put_number(&mut self.bytes, start, width, value);
        Ok(())
    }

    fn wait(&mut self, micros: u64) {
        self.waited = self.waited.saturating_add(micros);
    }

    fn copy(&mut self, from: u64, to: u64, len: u32) -> Result<(), SpaceFault> {
        let len = len as usize;
        let source = self.locate(Place::Memory(from), len)?;
        let target = self.locate(Place::Memory(to), len)?;
        copy_part(&mut self.bytes, source, target, len);
        Ok(())
    }

    fn read_bytes(&mut self, at: u64, out: &mut [u8]) -> Result<(), SpaceFault> {
        self.look_bytes(at, out)
    }

    fn write_bytes(&mut self, at: u64, bytes: &[u8]) -> Result<(), SpaceFault> {
        let start = self.locate(Place::Memory(at), bytes.len())?;
        put_part(&mut self.bytes, start, bytes);
        Ok(())
    }
}

/// The bytes of all windows together, none where there are more than a number can say.
fn total_of(windows: &[Window]) -> Option<usize>
    ensures { IfSome result (λ len. len ≡ total windows.now) }
{
    let mut all: usize = 0;
    for window in windows {
        all = all.checked_add(window.len as usize)?;
    }
    Some(all)
}
