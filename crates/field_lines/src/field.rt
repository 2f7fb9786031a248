// A field of a body.

/// A number and its name, or the number of a bit and its name.
#[derive(Clone, Copy)]
pub struct Name {
    pub number: u64,
    pub name: &'static str,
}

/// How what stands in a field is shown. Numbers have at most 8 bytes, the low one first.
#[derive(Clone, Copy)]
pub enum Shape {
    Decimal,
    /// Two digits of sixteen for each byte.
    Hexadecimal,
    Guid,
    /// The text before the first zero.
    Text,
    /// A number, and its name.
    OneOf(&'static [Name]),
    /// A number, and the names of its bits that are set.
    Flags(&'static [Name]),
    /// Some bits of a number, from the bit `low` on, and the name of the number that they are.
    Bits {
        low: u8,
        count: u8,
        names: &'static [Name],
    },
    /// A time in digits of four bits (UEFI 2.8, N.2.1).
    Stamp,
    /// Seconds since the start of 1970.
    Seconds,
    /// A generic address (ACPI 6.4, 5.2.3.2).
    Register,
    /// Two digits of sixteen for each byte, the first one first.
    Digits,
    /// The same for all bytes from the field on.
    Bytes,
    /// All bytes from the field on, as lines of text.
    Lines,
}

/// A field: where it stands, the validation bit that says whether it is there, and its name.
#[derive(Clone, Copy)]
pub struct Field {
    pub at: u16,
    pub width: u16,
    pub bit: Option<u8>,
    pub name: &'static str,
    pub shape: Shape,
}
