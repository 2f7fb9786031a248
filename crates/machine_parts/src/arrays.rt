// Memory arrays.
ghost use Rattle.std.specs.Prelude.{◌≡◌};
ghost use Rattle.smbios.specs.Structures.{pair};
ghost use Rattle.machine_parts.specs.Parts.{IsMemoryArray, number_told};

use apei_bytes::{byte_at, get_u16};
use smbios::Structure;

/// What a memory array says of itself (type 16; DSP0134, 7.17).
#[derive(Clone, Copy, Debug, PartialEq, Eq)]
pub struct MemoryArray {
    /// Where it is, as a number of the standard's table (7.17.1). None: the structure ends before.
    pub location: Option<u8>,
    /// How many sockets it has. None: the structure ends before.
    pub devices: Option<u16>,
}

/// What a memory array says of itself.
pub(crate) fn memory_array(structure: &Structure<'_>) -> MemoryArray
    ensures { IsMemoryArray (pair structure.now.formatted.now structure.now.strings.now) result }
{
    MemoryArray {
        location: location_of(structure),
        devices: devices_of(structure),
    }
}

fn location_of(structure: &Structure<'_>) -> Option<u8>
    ensures { result ≡ number_told (pair structure.now.formatted.now structure.now.strings.now) 4 1 }
{
    if structure.formatted.len() < 5 {
        return None;
    }
    Some(byte_at(structure.formatted, 4))
}

fn devices_of(structure: &Structure<'_>) -> Option<u16>
    ensures { result ≡ number_told (pair structure.now.formatted.now structure.now.strings.now) 13 2 }
{
    if structure.formatted.len() < 15 {
        return None;
    }
    Some(get_u16(structure.formatted, 13))
}
