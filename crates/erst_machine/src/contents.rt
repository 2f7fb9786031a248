// The bytes of the machine's areas but for the device's registers.
ghost use Rattle.std.specs.Prelude.{◌≡◌, ℕ, true, false, ◌+◌, ◌/◌, ◌<◌, ◌≤◌, ◌^◌, length, replicate, IfOk};
ghost use Rattle.base_model.specs.Bytes.{part, number_at, spelled, put_at};
ghost use Rattle.apei_tables.specs.Access.{bits};
ghost use Rattle.erst_machine.specs.Areas.{size_of, is_plain};

use crate::areas::{Area, BOOT_ERRORS_LEN, HANDOVER_LEN, PORTS_LEN, SCRATCH_LEN, STATUS};
use apei_bytes::OutOfMemory;
use apei_space::{Ram, Window, copy_part, get_number, get_part, put_number, put_part};
use apei_tables::{Place, Width};
use std::alloc::Global;

/// The bytes of the machine's areas, and whether each of the long ones was written since its bytes were zeros.
#[derive(Drop)]
pub struct Contents {
    pub range: Vec<u8>,
    pub scratch: Vec<u8>,
    pub ports: Vec<u8>,
    pub region: Vec<u8>,
    /// The handover's window. Its two sides write here.
    pub shared: Ram,
    pub range_written: bool,
    pub scratch_written: bool,
    pub region_written: bool,
    ghost range_blank: { range_written ≡ false → range.items ≡ replicate (length range.items) 0 },
    ghost scratch_blank: { scratch_written ≡ false → scratch.items ≡ replicate (length scratch.items) 0 },
    ghost region_blank: { region_written ≡ false → region.items ≡ replicate (length region.items) 0 },
}

/// The handover's window.
const SHARED: [Window; 1] = [Window {
    place: Place::Memory(STATUS),
    len: HANDOVER_LEN as u32,
}];

impl Contents {
    ghost use Rattle.erst_machine.specs.Memories.{memory_of, bytes_in, with_bytes, IsReadable, IsWritable, HasSizes, cleared, blank};

    /// Zeros, and a log range of so many.
    pub fn new(alloc: Global, reach: usize) -> Result<Contents, OutOfMemory>
        requires { reach ≤ 65536 }
        ensures zeros { IfOk result (λ contents. memory_of contents ≡ cleared reach contents.shared) }
        ensures sizes { IfOk result (λ contents. HasSizes reach (memory_of contents)) }
        ensures shared { IfOk result (λ contents. contents.shared ≡ blank) }
    {
        Ok(Contents {
            range: vec![in alloc; 0; reach]?,
            scratch: vec![in alloc; 0; SCRATCH_LEN]?,
            ports: vec![in alloc; 0; PORTS_LEN]?,
            region: vec![in alloc; 0; BOOT_ERRORS_LEN]?,
            shared: Ram::new(alloc, &SHARED)?,
            range_written: false,
            scratch_written: false,
            region_written: false,
        })
    }

    /// Makes all bytes zeros but for the handover's.
    pub fn clear(&mut self)
        requires { (reach : ℕ) × HasSizes reach (memory_of self.old) }
        ensures { memory_of self.new ≡ cleared (length self.old.range.items) self.old.shared }
    {
        make_zeros(&mut self.range, self.range_written);
        self.range_written = false;
        make_zeros(&mut self.scratch, self.scratch_written);
        self.scratch_written = false;
        make_zeros(&mut self.region, self.region_written);
        self.region_written = false;
        make_zeros(&mut self.ports, true);
    }

    /// The number at a byte of an area.
    #[inline(always)]
    pub fn number(&self, area: Area, start: usize, width: Width) -> u64
        requires sizes { (reach : ℕ) × HasSizes reach (memory_of self.now)
            × (start + bits width / 8 ≤ size_of reach area) }
        requires readable { IsReadable area }
        ensures value { result ≡ number_at (bytes_in area (memory_of self.now)) start (bits width / 8) }
        ensures small { result < 2 ^ bits width }
    {
        match area {
            Area::Scratch => get_number(&self.scratch, start, width),
            Area::LogRange => get_number(&self.range, start, width),
            Area::BootErrors => get_number(&self.region, start, width),
            Area::Ports => get_number(&self.ports, start, width),
            Area::Handover => Contents::shared_number(&self.shared, start, width),
            Area::Device => unreachable!(),
        }
    }

    /// Fills `out` with the bytes of an area from one on.
    pub fn part(&self, area: Area, start: usize, out: &mut [u8])
        requires sizes { (reach : ℕ) × HasSizes reach (memory_of self.now)
            × (start + length out.old ≤ size_of reach area) }
        requires readable { IsReadable area }
        ensures { out.new ≡ part (bytes_in area (memory_of self.now)) start (length out.old) }
    {
        match area {
            Area::Scratch => get_part(&self.scratch, start, out),
            Area::LogRange => get_part(&self.range, start, out),
            Area::BootErrors => get_part(&self.region, start, out),
            Area::Ports => get_part(&self.ports, start, out),
            Area::Handover => Contents::shared_part(&self.shared, start, out),
            Area::Device => unreachable!(),
        }
    }

    /// Writes the low bits of a number.
    pub fn put_number(&mut self, area: Area, start: usize, width: Width, value: u64)
        requires sizes { (reach : ℕ) × HasSizes reach (memory_of self.old)
            × (start + bits width / 8 ≤ size_of reach area) }
        requires writable { IsWritable area }
        ensures { let bytes = put_at (bytes_in area (memory_of self.old)) start (spelled (bits width / 8) value) in
            memory_of self.new ≡ with_bytes area (memory_of self.old) bytes }
    {
        match area {
            Area::Scratch => {
                self.scratch_written = true;
                put_number(&mut self.scratch, start, width, value);
            }
            Area::LogRange => {
                self.range_written = true;
                put_number(&mut self.range, start, width, value);
            }
            Area::Ports => put_number(&mut self.ports, start, width, value),
            Area::Device | Area::Handover | Area::BootErrors => unreachable!(),
        }
    }

    /// Writes bytes.
    pub fn put_part(&mut self, area: Area, start: usize, bytes: &[u8])
        requires sizes { (reach : ℕ) × HasSizes reach (memory_of self.old)
            × (start + length bytes.now ≤ size_of reach area) }
        requires writable { IsWritable area }
        ensures { memory_of self.new ≡ with_bytes area (memory_of self.old)
            (put_at (bytes_in area (memory_of self.old)) start bytes.now) }
    {
        match area {
            Area::Scratch => {
                self.scratch_written = true;
                put_part(&mut self.scratch, start, bytes);
            }
            Area::LogRange => {
                self.range_written = true;
                put_part(&mut self.range, start, bytes);
            }
            Area::Ports => put_part(&mut self.ports, start, bytes),
            Area::Device | Area::Handover | Area::BootErrors => unreachable!(),
        }
    }

    /// Copies `n` bytes of plain memory, as if they were read whole first.
    pub fn copy(&mut self, source: Area, start: usize, target: Area, place: usize, n: usize)
        requires sizes { (reach : ℕ) × HasSizes reach (memory_of self.old) × (start + n ≤ size_of reach source)
            × (place + n ≤ size_of reach target) }
        requires source { is_plain source ≡ true }
        requires target { is_plain target ≡ true }
        ensures { let bytes = put_at (bytes_in target (memory_of self.old)) place
            (part (bytes_in source (memory_of self.old)) start n)
            in memory_of self.new ≡ with_bytes target (memory_of self.old) bytes }
    {
        match source {
            Area::Scratch => match target {
                Area::Scratch => {
                    self.scratch_written = true;
                    copy_part(&mut self.scratch, start, place, n);
                }
                Area::LogRange => {
                    self.range_written = true;
                    put_from(&mut self.range, place, &self.scratch, start, n);
                }
                _ => unreachable!(),
            },
            Area::LogRange => match target {
                Area::Scratch => {
                    self.scratch_written = true;
                    put_from(&mut self.scratch, place, &self.range, start, n);
                }
                Area::LogRange => {
                    self.range_written = true;
                    copy_part(&mut self.range, start, place, n);
                }
                _ => unreachable!(),
            },
            _ => unreachable!(),
        }
    }

    fn shared_number(shared: &Ram, start: usize, width: Width) -> u64
        requires windows { shared.now.windows ≡ blank.windows }
        requires within { start + bits width / 8 ≤ HANDOVER_LEN }
        ensures value { result ≡ number_at shared.now.bytes start (bits width / 8) }
        ensures small { result < 2 ^ bits width }
    {
        let at = STATUS + start as u64;
        shared.look(Place::Memory(at), width).unwrap_or(0)
    }

    fn shared_part(shared: &Ram, start: usize, out: &mut [u8])
        requires windows { shared.now.windows ≡ blank.windows }
        requires within { start + length out.old ≤ HANDOVER_LEN }
        ensures { out.new ≡ part shared.now.bytes start (length out.old) }
    {
        let at = STATUS + start as u64;
        let _ = shared.look_bytes(at, out);
    }
}

/// Makes bytes zeros, which they are already where they were not written.
fn make_zeros(bytes: &mut [u8], were_written: bool)
    requires { were_written ≡ false → bytes.old ≡ replicate (length bytes.old) 0 }
    ensures { bytes.new ≡ replicate (length bytes.old) 0 }
{
    if were_written {
        bytes.fill(0);
    }
}

/// Writes a part of other bytes.
fn put_from(bytes: &mut [u8], place: usize, others: &[u8], start: usize, n: usize)
    requires to { place + n ≤ length bytes.old }
    requires from { start + n ≤ length others.now }
    ensures { bytes.new ≡ put_at bytes.old place (part others.now start n) }
{
    put_part(bytes, place, &others[start..start + n]);
}
