// How severe an error is.
ghost use Rattle.std.specs.Prelude.{◌≡◌};
ghost use Rattle.item_makers.specs.Severities.{severity_number, severity_of};

/// How severe an error is, by the numbers that blocks and records share (ACPI 6.4, table 18.11; UEFI 2.8, N.2.1).
#[derive(Clone, Copy, Debug, PartialEq, Eq)]
pub enum Severity {
    Recoverable,
    Fatal,
    Corrected,
    Informational,
}

impl Severity {
    /// Its number.
    pub fn number(self) -> u32
        ensures { result ≡ severity_number self }
    {
        match self {
            Severity::Recoverable => 0,
            Severity::Fatal => 1,
            Severity::Corrected => 2,
            Severity::Informational => 3,
        }
    }

    /// The severity of a number; none for a number that has none.
    pub fn from_number(number: u32) -> Option<Severity>
        ensures { result ≡ severity_of number }
    {
        match number {
            0 => Some(Severity::Recoverable),
            1 => Some(Severity::Fatal),
            2 => Some(Severity::Corrected),
            3 => Some(Severity::Informational),
            _ => None,
        }
    }
}
