// Registers.
ghost use Rattle.std.specs.Prelude.{◌≡◌, ◌+◌, ◌≤◌, length};
ghost use Rattle.linux_checks.specs.Registers.{access_bits, fits, is_too_high, is_whole, mapping_reason, register_reason, register_refusal};

use crate::reasons::{Reason, Refusal};
use apei_bytes::{byte_at, get_u64};

// The address space of I/O; that of memory is the one before it (ACPI 6.4, section 5.2.3.2).
const IO: u8 = 1;

// How many bits an address in memory has at most.
const ADDRESS_BITS: u32 = 52;

// Why Linux refuses the register at a place, if it does.
pub(crate) fn register_refusal(bytes: &[u8], at: u8) -> Option<Refusal>
    requires { at + 12 ≤ length bytes.now }
    ensures { result ≡ register_refusal bytes.now at }
{
    let place = at as usize;
    let reason = register_reason(
        byte_at(bytes, place),
        byte_at(bytes, place + 1),
        byte_at(bytes, place + 2),
        byte_at(bytes, place + 3),
        get_u64(bytes, place + 4),
    );
    match reason {
        Some(reason) => Some(Refusal { at, reason }),
        None => None,
    }
}

fn register_reason(space: u8, width: u8, offset: u8, access: u8, address: u64) -> Option<Reason>
    ensures { result ≡ register_reason space width offset access address }
{
    if address == 0 {
        Some(Reason::NoAddress)
    } else if access == 0 || access > 4 {
        Some(Reason::AccessSize)
    } else if !fits(width, offset, access, address) {
        Some(Reason::TooWide)
    } else if space > IO {
        Some(Reason::OtherSpace)
    } else if space == IO {
        None
    } else {
        mapping_reason(width, address)
    }
}

fn fits(width: u8, offset: u8, access: u8, address: u64) -> bool
    ensures { result ≡ fits width offset access address }
{
    u32::from(width) + u32::from(offset) <= access_bits(access)
        || is_whole(width, offset, address, 32, 4)
        || is_whole(width, offset, address, 64, 8)
}

fn access_bits(code: u8) -> u32
    ensures { result ≡ access_bits code }
{
    match code {
        1 => 8,
        2 => 16,
        3 => 32,
        _ => 64,
    }
}

fn is_whole(width: u8, offset: u8, address: u64, bits: u8, size: u64) -> bool
    requires { 1 ≤ size }
    ensures { result ≡ is_whole width offset address bits size }
{
    width == bits && offset == 0 && address % size == 0
}

// Why a register in memory is not mapped.
fn mapping_reason(width: u8, address: u64) -> Option<Reason>
    ensures { result ≡ mapping_reason width address }
{
    if width == 0 {
        Some(Reason::NoBits)
    } else if is_too_high(address) {
        Some(Reason::TooHigh)
    } else {
        None
    }
}

pub(crate) fn is_too_high(address: u64) -> bool
    ensures { result ≡ is_too_high address }
{
    address >= 1 << ADDRESS_BITS
}
