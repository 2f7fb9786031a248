// The machine's memory map, and where an access of it stands.
ghost use Rattle.std.specs.Prelude.{◌≡◌, ◌+◌, ◌<◌, ◌≤◌, ◌^◌, IfSome, unwrap_or};
ghost use Rattle.erst_machine.specs.Areas.{base_of, size_of, area_location, place_location, IsPlaced, is_plain, register_at};

use apei_tables::{Place, Width};
use erst_device::LOG_RANGE;

/// The registers ACTION and VALUE, where the device's area begins.
pub const ACTION: u64 = 0x20_0000;

pub const VALUE: u64 = 0x20_0008;

pub const DEVICE_LEN: usize = 16;

/// Plain memory.
pub const SCRATCH: u64 = 0x1000;

pub const SCRATCH_LEN: usize = 4096;

/// The handover's window: the status word, where it begins, the acknowledge register, and the block.
pub const STATUS: u64 = 0x30_0000;

pub const ACKNOWLEDGE: u64 = 0x30_0008;

pub const BLOCK: u64 = 0x30_1000;

pub const BLOCK_LEN: u32 = 4096;

pub const HANDOVER_LEN: usize = 8192;

/// The boot error region.
pub const BOOT_ERRORS: u64 = 0x40_0000;

pub const BOOT_ERRORS_LEN: usize = 16384;

/// The ports.
pub const PORTS: u64 = 0x500;

pub const PORTS_LEN: usize = 16;

/// An area of the machine's map: the ports are I/O, all others memory.
#[derive(Clone, Copy, Debug, PartialEq, Eq)]
pub enum Area {
    /// The device's registers, 16 bytes.
    Device,
    /// Plain memory, 4,096 bytes.
    Scratch,
    /// The error log address range, plain memory with as many bytes as the longest record.
    LogRange,
    /// Where the two sides of the handover meet, 8,192 bytes. Accesses only read it.
    Handover,
    /// The boot error region, 16,384 bytes. Accesses only read it.
    BootErrors,
    /// 16 plain bytes.
    Ports,
}

/// Where the bytes of an access stand.
#[derive(Clone, Copy, Debug, PartialEq, Eq)]
pub enum Location {
    /// All of them in an area, from this byte of it on.
    Inside(Area, usize),
    /// The first in an area, and the first behind it at this address, where nothing is mapped.
    Beyond(Area, u64),
    /// The first at this address, where nothing is mapped.
    Nowhere(u64),
}

/// A register of the device.
#[derive(Clone, Copy, Debug, PartialEq, Eq)]
pub enum Register {
    Action,
    Value,
    NoRegister,
}

impl Area {
    /// The address of its first byte.
    pub fn base(self) -> u64
        ensures value { result ≡ base_of self }
        ensures small { result < 2 ^ 32 }
    {
        match self {
            Area::Device => ACTION,
            Area::Scratch => SCRATCH,
            Area::LogRange => LOG_RANGE,
            Area::Handover => STATUS,
            Area::BootErrors => BOOT_ERRORS,
            Area::Ports => PORTS,
        }
    }

    /// How many bytes it has, on a machine whose longest record has so many.
    pub fn size(self, reach: usize) -> usize
        requires { reach < 2 ^ 32 }
        ensures value { result ≡ size_of reach self }
        ensures small { result < 2 ^ 32 }
    {
        match self {
            Area::Device => DEVICE_LEN,
            Area::Scratch => SCRATCH_LEN,
            Area::LogRange => reach,
            Area::Handover => HANDOVER_LEN,
            Area::BootErrors => BOOT_ERRORS_LEN,
            Area::Ports => PORTS_LEN,
        }
    }

    /// Whether copies may read and write it.
    pub fn is_plain(self) -> bool
        ensures { result ≡ is_plain self }
    {
        matches!(self, Area::Scratch | Area::LogRange)
    }

    /// Where `n` bytes stand whose first one is in the area.
    #[tactic(auto, using(std::proofs::lemmas::Bool::Decides::nat_tests))]
    fn location(self, reach: usize, at: u64, n: usize) -> Option<Location>
        requires reach { reach < 2 ^ 32 }
        requires n { n < 2 ^ 63 }
        ensures value { result ≡ area_location reach self at n }
        ensures placed { IfSome result (IsPlaced reach n) }
    {
        let base = self.base();
        let end = base + self.size(reach) as u64;
        if at < base || at >= end {
            return None;
        }
        if at + n as u64 > end {
            return Some(Location::Beyond(self, end));
        }
        Some(Location::Inside(self, (at - base) as usize))
    }

    /// Where `n` bytes stand if no other area has the first of them.
    #[inline(always)]
    fn location_alone(self, reach: usize, at: u64, n: usize) -> Location
        requires reach { reach < 2 ^ 32 }
        requires n { n < 2 ^ 63 }
        ensures value { result ≡ unwrap_or (area_location reach self at n) (Location.Nowhere at) }
        ensures placed { IsPlaced reach n result }
    {
        match self.location(reach, at, n) {
            Some(location) => location,
            None => Location::Nowhere(at),
        }
    }
}

/// Where `n` bytes of memory stand: the one area that may have the first of them is looked at.
pub fn memory_location(reach: usize, at: u64, n: usize) -> Location
    requires reach { reach ≤ 65536 }
    requires n { n < 2 ^ 63 }
    ensures value { result ≡ place_location reach (Place.Memory at) n }
    ensures placed { IsPlaced reach n result }
{
    if n == 0 {
        return Location::Inside(Area::Scratch, 0);
    }
    if at < LOG_RANGE {
        Area::Scratch.location_alone(reach, at, n)
    } else if at < ACTION {
        Area::LogRange.location_alone(reach, at, n)
    } else if at < STATUS {
        Area::Device.location_alone(reach, at, n)
    } else if at < BOOT_ERRORS {
        Area::Handover.location_alone(reach, at, n)
    } else {
        Area::BootErrors.location_alone(reach, at, n)
    }
}

/// Where `n` bytes of ports stand.
pub fn port_location(reach: usize, at: u64, n: usize) -> Location
    requires reach { reach < 2 ^ 32 }
    requires n { n < 2 ^ 63 }
    ensures value { result ≡ place_location reach (Place.Io at) n }
    ensures placed { IsPlaced reach n result }
{
    Area::Ports.location_alone(reach, at, n)
}

/// Where `n` bytes stand.
pub fn place_location(reach: usize, at: Place, n: usize) -> Location
    requires reach { reach ≤ 65536 }
    requires n { n < 2 ^ 63 }
    ensures value { result ≡ place_location reach at n }
    ensures placed { IsPlaced reach n result }
{
    match at {
        Place::Memory(address) => memory_location(reach, address, n),
        Place::Io(address) => port_location(reach, address, n),
    }
}

/// The register that an access of the device moves.
pub fn register_at(start: usize, width: Width) -> Register
    ensures { result ≡ register_at start width }
{
    match width {
        Width::B32 => if start == 0 {
            Register::Action
        } else {
            Register::NoRegister
        },
        Width::B64 => if start == 8 {
            Register::Value
        } else {
            Register::NoRegister
        },
        Width::B8 | Width::B16 => Register::NoRegister,
    }
}
