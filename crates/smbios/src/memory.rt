// Memory devices.
ghost use Rattle.std.specs.Prelude.{◌≡◌, ◌+◌, ◌<◌};
ghost use Rattle.smbios.specs.Structures.{pair};
ghost use Rattle.smbios.specs.Memory.{IsMemoryDevice, field, size_of, speed_of};

use crate::structures::Structure;
use apei_bytes::{get_u16, get_u32};

/// What a memory device says of itself (type 17; DSP0134, 7.18). Of a structure of another type it tells what stands at these places.
#[derive(Clone, Copy)]
pub struct MemoryDevice<'a> {
    /// The label of its socket, as on the board: device locator.
    pub locator: Option<&'a [u8]>,
    /// The label of its bank: bank locator.
    pub bank: Option<&'a [u8]>,
    pub maker: Option<&'a [u8]>,
    pub serial: Option<&'a [u8]>,
    pub part_number: Option<&'a [u8]>,
    /// In units of 1,024 bytes. 0: the socket is empty. None: it is not known.
    pub size: Option<u64>,
    /// The greatest speed in megatransfers a second. None: it is not known.
    pub speed: Option<u32>,
}

/// What a memory device says of itself.
pub fn memory_device<'a>(structure: &Structure<'a>) -> MemoryDevice<'a>
    ensures { IsMemoryDevice (pair structure.now.formatted.now structure.now.strings.now) result }
{
    MemoryDevice {
        locator: structure.text_at(16),
        bank: structure.text_at(17),
        maker: structure.text_at(23),
        serial: structure.text_at(24),
        part_number: structure.text_at(26),
        size: size_of(structure),
        speed: speed_of(structure),
    }
}

fn size_of(structure: &Structure<'_>) -> Option<u64>
    ensures { result ≡ size_of (pair structure.now.formatted.now structure.now.strings.now) }
{
    match number_16(structure, 12, 0xFFFF) {
        0xFFFF => None,
        0x7FFF => Some(1024 * u64::from(number_32(structure, 28, 0) % (1 << 31))),
        megabytes if megabytes < 0x8000 => Some(1024 * u64::from(megabytes)),
        kilobytes => Some(u64::from(kilobytes % 0x8000)),
    }
}

fn speed_of(structure: &Structure<'_>) -> Option<u32>
    ensures { result ≡ speed_of (pair structure.now.formatted.now structure.now.strings.now) }
{
    let speed = match number_16(structure, 21, 0) {
        0xFFFF => number_32(structure, 84, 0) % (1 << 31),
        told => u32::from(told),
    };
    if speed == 0 { None } else { Some(speed) }
}

// The number in two bytes of the formatted area, or this one if they are not there.
fn number_16(structure: &Structure<'_>, at: usize, unknown: u16) -> u16
    requires { at < 256 }
    ensures { result ≡ field (pair structure.now.formatted.now structure.now.strings.now) at 2 unknown }
{
    if at + 2 <= structure.formatted.len() {
        get_u16(structure.formatted, at)
    } else {
        unknown
    }
}

fn number_32(structure: &Structure<'_>, at: usize, unknown: u32) -> u32
    requires { at < 256 }
    ensures { result ≡ field (pair structure.now.formatted.now structure.now.strings.now) at 4 unknown }
{
    if at + 4 <= structure.formatted.len() {
        get_u32(structure.formatted, at)
    } else {
        unknown
    }
}
