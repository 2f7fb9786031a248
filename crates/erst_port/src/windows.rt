// Where the registers and the log range stand.
ghost use Rattle.std.specs.Prelude.{◌≡◌, ◌+◌, ◌/◌, ◌<◌, ◌≤◌, ◌^◌, true};
ghost use Rattle.apei_tables.specs.Access.{bits};
ghost use Rattle.erst_port.specs.Places.{are_apart, register_location, range_location, location_of, IsPlaced};

use apei_tables::Width;

/// A window of a port.
#[derive(Clone, Copy, Debug, PartialEq, Eq)]
pub enum Window {
    /// ACTION, 32 bits at 0, and VALUE, 64 bits at 8. A half of VALUE is 32 bits at 8 or at 12.
    Registers,
    /// The log range, by which records go in and out.
    LogRange,
}

/// Where in physical memory the two windows begin.
#[derive(Clone, Copy, Debug, PartialEq, Eq)]
pub struct Addresses {
    /// The registers, 16 bytes.
    pub registers: u64,
    /// The log range, as long as the longest record.
    pub range: u64,
}

/// Where an access stands.
#[derive(Clone, Copy)]
pub enum Location {
    /// ACTION.
    Action,
    /// VALUE.
    Value,
    /// The low half of VALUE.
    LowHalf,
    /// The high half of VALUE.
    HighHalf,
    /// In the log range, from this byte on.
    Bytes(usize),
    /// Nowhere.
    Nowhere,
}

const REGISTERS_SIZE: u64 = 16;

impl Addresses {
    /// Whether both windows end below 2^64 and neither reaches into the other, with a log range of `size` bytes.
    #[tactic(auto, using(std::proofs::lemmas::Bool::Decides::nat_tests), unfolding(crate::specs::Places::are_apart))]
    pub fn are_apart(&self, size: u64) -> bool
        requires { size < 2 ^ 63 }
        ensures value { result ≡ are_apart size self.now }
        ensures below { result ≡ true → self.now.registers + 8 < 2 ^ 64 }
    {
        if self.registers > u64::MAX - REGISTERS_SIZE || self.range > u64::MAX - size {
            return false;
        }
        self.registers + REGISTERS_SIZE <= self.range || self.range + size <= self.registers
    }
}

// Where a number of a width stands among the registers.
fn register_location(offset: u64, width: Width) -> Location
    ensures { result ≡ register_location offset width }
{
    match (width, offset) {
        (Width::B32, 0) => Location::Action,
        (Width::B32, 8) => Location::LowHalf,
        (Width::B32, 12) => Location::HighHalf,
        (Width::B64, 8) => Location::Value,
        _ => Location::Nowhere,
    }
}

/// Where `n` bytes stand in a log range of `size` bytes.
#[tactic(auto, using(std::proofs::lemmas::Bool::Decides::nat_tests))]
pub fn range_location(size: usize, offset: u64, n: usize) -> Location
    requires size { size < 2 ^ 63 }
    requires n { n < 2 ^ 63 }
    ensures value { result ≡ range_location size offset n }
    ensures placed { IsPlaced size n result }
{
    if offset > size as u64 || n as u64 > size as u64 - offset {
        return Location::Nowhere;
    }
    Location::Bytes(offset as usize)
}

fn bytes_of(width: Width) -> usize
    ensures value { result ≡ bits width / 8 }
    ensures few { result ≤ 8 }
{
    width.bytes()
}

/// Where a number of a width stands in a window, with a log range of `size` bytes.
pub fn location_of(window: Window, size: usize, offset: u64, width: Width) -> Location
    requires { size < 2 ^ 63 }
    ensures value { result ≡ location_of window size offset width }
    ensures placed { IsPlaced size (bits width / 8) result }
{
    match window {
        Window::Registers => register_location(offset, width),
        Window::LogRange => range_location(size, offset, bytes_of(width)),
    }
}
