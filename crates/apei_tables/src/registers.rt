// The register that a Generic Address Structure describes, and the arithmetic of its field.
ghost use Rattle.std.specs.Prelude.{◌≡◌, ◌<◌};
ghost use Rattle.apei_tables.specs.Fields.{field, stored, merged};

use crate::widths::Width;

/// An address in one of the two address spaces that ACPI's register programs may use here.
#[derive(Clone, Copy, Debug, PartialEq, Eq)]
pub enum Place {
    Memory(u64),
    Io(u64),
}

/// A register: one access of this width at this place moves it, and its field begins at the bit `offset`.
#[derive(Clone, Copy, Debug, PartialEq, Eq)]
pub struct Register {
    pub place: Place,
    pub access: Width,
    pub offset: u8,
}

/// Why a Generic Address Structure describes no register.
#[derive(Clone, Copy, Debug, PartialEq, Eq)]
pub enum BadRegister {
    /// An address space other than system memory and system I/O.
    Space(u64),
    /// An access size code that ACPI doesn't define.
    Access(u64),
    /// A field of no bits, or one that ends past the last bit of a 64-bit access.
    Bits { offset: u64, width: u64 },
}

impl Register {
    /// The field in what one access read.
    pub fn field(&self, read: u64, mask: u64) -> u64
        requires { self.now.offset < 64 }
        ensures { result ≡ field read self.now.offset mask }
    {
        (read >> self.offset) & mask
    }

    /// What a store of `value` writes, all bits outside the field 0.
    pub fn stored(&self, value: u64, mask: u64) -> u64
        requires { self.now.offset < 64 }
        ensures { result ≡ stored value self.now.offset mask }
    {
        (value & mask) << self.offset
    }

    /// What a store of `value` writes that keeps the bits outside the field as they were `read`.
    pub fn merged(&self, read: u64, value: u64, mask: u64) -> u64
        requires { self.now.offset < 64 }
        ensures { result ≡ merged read value self.now.offset mask }
    {
        self.stored(value, mask) | (read & !(mask << self.offset))
    }
}
