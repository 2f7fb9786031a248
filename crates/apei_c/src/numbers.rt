// What the header's numbers stand for.
ghost use Rattle.std.specs.Prelude.{◌≡◌};
ghost use Rattle.apei_c.specs.Numbers.{window_of, width_of, item_of, addresses_of};

use crate::structs::WindowAddresses;
use apei_tables::Width;
use erst_port::{Addresses, Window};
use item_parts::Item;

pub fn window_of(number: u32) -> Option<Window>
    ensures { result ≡ window_of number }
{
    match number {
        0 => Some(Window::Registers),
        1 => Some(Window::LogRange),
        _ => None,
    }
}

/// The width of a number of so many bytes.
pub fn width_of(bytes: u32) -> Option<Width>
    ensures { result ≡ width_of bytes }
{
    // The widths of most accesses come first, by jumps: of more arms in one match the toolchain's own compiler makes shifts.
    if bytes == 8 {
        return Some(Width::B64);
    }
    if bytes == 4 {
        return Some(Width::B32);
    }
    match bytes {
        1 => Some(Width::B8),
        2 => Some(Width::B16),
        _ => None,
    }
}

pub fn item_of(number: u32) -> Option<Item>
    ensures { result ≡ item_of number }
{
    match number {
        0 => Some(Item::Erst),
        1 => Some(Item::Hest),
        2 => Some(Item::Bert),
        3 => Some(Item::Record),
        4 => Some(Item::Block),
        _ => None,
    }
}

pub fn addresses_of(addresses: &WindowAddresses) -> Addresses
    ensures { result ≡ addresses_of addresses.now }
{
    Addresses {
        registers: addresses.registers,
        range: addresses.range,
    }
}
