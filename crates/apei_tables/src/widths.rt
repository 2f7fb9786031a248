// How many bits one access moves.
ghost use Rattle.std.specs.Prelude.{◌≡◌, ◌*◌, ◌≤◌, Option, OnErr};
ghost use Rattle.apei_tables.specs.Access.{bits, bits_of_code, narrowest};

/// The width of one access: 8, 16, 32 or 64 bits.
#[derive(Clone, Copy, Debug, PartialEq, Eq)]
pub enum Width {
    B8,
    B16,
    B32,
    B64,
}

impl Width {
    /// The number of bytes that an access moves.
    pub fn bytes(self) -> usize
        ensures { 8 * result ≡ bits self }
    {
        match self {
            Width::B8 => 1,
            Width::B16 => 2,
            Width::B32 => 4,
            Width::B64 => 8,
        }
    }

    /// The narrowest width of at least so many bits.
    pub fn holding(bits: u8) -> Width
        requires { bits ≤ 64 }
        ensures { result ≡ narrowest bits }
    {
        match bits {
            0..=8 => Width::B8,
            9..=16 => Width::B16,
            17..=32 => Width::B32,
            _ => Width::B64,
        }
    }
}

/// The bits that an access size code names, none where it leaves the size open.
pub fn bits_of(code: u8) -> u8
    requires { code ≤ 4 }
    ensures { result ≡ bits_of_code code }
{
    match code {
        0 => 0,
        1 => 8,
        2 => 16,
        3 => 32,
        _ => 64,
    }
}
