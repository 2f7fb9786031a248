// The numbers by which sections name parts.
ghost use Rattle.std.specs.Prelude.{◌≡◌, ◌≤◌, ◌<◌, length};
ghost use Rattle.machine_parts.specs.Numbers.{card_handle, is_valid, module_handle, number_2, number_4, slot_number};

use apei_bytes::{get_u16, get_u32, get_u64};

/// The types of sections that name a part.
#[derive(Clone, Copy, Debug, PartialEq, Eq)]
pub enum Naming {
    /// A memory error (UEFI 2.8, N.2.5).
    Memory,
    /// A memory error of the second form (UEFI 2.8, N.2.6).
    Memory2,
    /// A PCI Express error (UEFI 2.8, N.2.7).
    PciExpress,
}

/// The handle of the memory module (type 17 of DSP0134), where the section says that it has one.
pub(crate) fn module_handle(naming: Naming, body: &[u8]) -> Option<u32>
    ensures { result ≡ module_handle naming body.now }
{
    match naming {
        Naming::Memory => number_2(body, 17, 78),
        Naming::Memory2 => number_4(body, 19, 92),
        Naming::PciExpress => None,
    }
}

/// The handle of the memory card, which is a memory array (type 16 of DSP0134).
pub(crate) fn card_handle(naming: Naming, body: &[u8]) -> Option<u32>
    ensures { result ≡ card_handle naming body.now }
{
    match naming {
        Naming::Memory => number_2(body, 16, 76),
        Naming::Memory2 => number_4(body, 18, 88),
        Naming::PciExpress => None,
    }
}

/// The number of the slot (type 9 of DSP0134): 13 bits of the device's identification.
pub(crate) fn slot_number(naming: Naming, body: &[u8]) -> Option<u32>
    ensures { result ≡ slot_number naming body.now }
{
    match naming {
        Naming::PciExpress => match number_2(body, 3, 37) {
            Some(number) => Some(number / 8),
            None => None,
        },
        Naming::Memory | Naming::Memory2 => None,
    }
}

// The number in two bytes, where they are there and the validation bit is set.
fn number_2(body: &[u8], bit: u32, at: usize) -> Option<u32>
    requires bit { bit < 64 }
    requires behind { (8 ≤ at) × (at < 1000) }
    ensures { result ≡ number_2 body.now bit at }
{
    if body.len() < at + 2 {
        return None;
    }
    if !is_valid(body, bit) {
        return None;
    }
    Some(u32::from(get_u16(body, at)))
}

// The same in four bytes.
fn number_4(body: &[u8], bit: u32, at: usize) -> Option<u32>
    requires bit { bit < 64 }
    requires behind { (8 ≤ at) × (at < 1000) }
    ensures { result ≡ number_4 body.now bit at }
{
    if body.len() < at + 4 {
        return None;
    }
    if !is_valid(body, bit) {
        return None;
    }
    Some(get_u32(body, at))
}

// Whether a validation bit is set; they stand first.
fn is_valid(body: &[u8], bit: u32) -> bool
    requires there { 8 ≤ length body.now }
    requires bit { bit < 64 }
    ensures { result ≡ is_valid body.now bit }
{
    (get_u64(body, 0) >> bit) % 2 == 1
}
