// The Generic Address Structure, its bytes, and whether it describes a register.
ghost use Rattle.std.specs.Prelude.{◌≡◌, ℕ, ◌<◌, IfOk};
ghost use Rattle.apei_tables.specs.GasLayout.{spelling, IsGas};
ghost use Rattle.apei_tables.specs.Check.{checked};

use crate::registers::{BadRegister, Place, Register};
use crate::widths::{Width, bits_of};
use apei_bytes::{get_u64, put_u64};

/// ACPI's Generic Address Structure, as it stands in a table (ACPI 6.4, section 5.2.3.2): 12 bytes, of which the first
/// four are the address space, the register's bit width, its bit offset and the access size code, and the last eight
/// the address.
#[derive(Clone, Copy, Debug, PartialEq, Eq)]
pub struct Gas {
    pub space: u8,
    pub width: u8,
    pub offset: u8,
    pub access: u8,
    pub address: u64,
}

impl Gas {
    /// The structure that these bytes are. Every 12 bytes are one.
    pub fn decode(bytes: &[u8; 12]) -> Gas
        ensures found { bytes.now ≡ spelling result }
        ensures only { (gas : _) → IsGas gas → bytes.now ≡ spelling gas → gas ≡ result }
    {
        Gas {
            space: bytes[0],
            width: bytes[1],
            offset: bytes[2],
            access: bytes[3],
            address: get_u64(bytes, 4),
        }
    }

    /// Its 12 bytes.
    pub fn encode(&self) -> [u8; 12]
        ensures { result ≡ spelling self.now }
    {
        let mut bytes = [0; 12];
        bytes[0] = self.space;
        bytes[1] = self.width;
        bytes[2] = self.offset;
        bytes[3] = self.access;
        put_u64(&mut bytes, 4, self.address);
        bytes
    }

    /// The register that it describes. The refusals are tried in the order of `BadRegister`. The bit width chooses
    /// the access and nothing else: a field is cut by its mask alone.
    pub fn check(&self) -> Result<Register, BadRegister>
        ensures exact { result ≡ checked self.now }
        ensures offset { IfOk result (λ register. register.offset < 64) }
    {
        let place = match self.space {
            0 => Place::Memory(self.address),
            1 => Place::Io(self.address),
            other => return Err(BadRegister::Space(u64::from(other))),
        };
        if self.access > 4 {
            return Err(BadRegister::Access(u64::from(self.access)));
        }
        if self.width == 64 && self.offset == 0 {
            return Ok(Register {
                place,
                access: Width::B64,
                offset: 0,
            });
        }
        if self.width == 0 || u16::from(self.offset) + u16::from(self.width) > 64 {
            return Err(BadRegister::Bits {
                offset: u64::from(self.offset),
                width: u64::from(self.width),
            });
        }
        let reach = self.offset + self.width;
        Ok(Register {
            place,
            access: Width::holding(reach.max(bits_of(self.access))),
            offset: self.offset,
        })
    }
}
