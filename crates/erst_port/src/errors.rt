// Why a port is not opened, and why a call of it is refused.
use image_survey::MediumError;

/// Why a port is not opened: the first reason that applies.
#[derive(Clone, Copy, Debug, PartialEq, Eq)]
pub enum OpenError {
    /// The medium begins with no header that a format made.
    Foreign,
    /// Its header is of another version.
    Version { found: u32 },
    /// The bytes are not as many as the geometry has.
    Size { found: u64, wanted: u64 },
    /// A window does not end below 2^64, or the windows overlap.
    Addresses,
    /// There was no memory.
    Memory,
}

impl From<MediumError> for OpenError {
    ghost use Rattle.std.specs.Prelude.{◌≡◌};
    ghost use Rattle.erst_port.specs.Openings.{open_error};

    ghost from_gives = { λ error refusal. refusal ≡ open_error error };

    fn from(error: MediumError) -> OpenError {
        match error {
            MediumError::Foreign => OpenError::Foreign,
            MediumError::Version { found } => OpenError::Version { found },
            MediumError::Size { found, wanted } => OpenError::Size { found, wanted },
        }
    }
}

/// Why a port is not opened anew after its medium failed a change. Nothing has changed then.
#[derive(Clone, Copy, Debug, PartialEq, Eq)]
pub enum ReopenError {
    /// The medium is not opened.
    Medium(OpenError),
    /// Its first sector tells a flash that is divided otherwise than the port's.
    Geometry,
}

/// Why a call is refused. Nothing has changed then, but where the flash failed.
#[derive(Clone, Copy, Debug, PartialEq, Eq)]
pub enum PortError {
    /// No register and no byte of the log range stands there, or not of this width.
    BadAccess,
    /// The medium has not yet made every change.
    Due,
    /// The flash failed.
    Flash,
}

/// No change is due.
#[derive(Clone, Copy, Debug, PartialEq, Eq)]
pub struct NotDue;

/// A window would not end below 2^64, or the windows would overlap.
#[derive(Clone, Copy, Debug, PartialEq, Eq)]
pub struct BadAddresses;

/// Why a device is not saved. Nothing has changed then.
#[derive(Clone, Copy, Debug, PartialEq, Eq)]
pub enum SaveError {
    /// An execution runs.
    Busy,
    /// The medium has not yet made every change.
    Due,
    /// The buffer has fewer than so many bytes.
    Short { need: usize },
}

/// Why a device is not loaded: the first reason that applies.
#[derive(Clone, Copy, Debug, PartialEq, Eq)]
pub enum LoadError {
    /// The bytes are not those of a saved device.
    Foreign,
    /// They are of another version.
    Version { found: u32 },
    /// They hold an operation or a command status that there is not.
    Registers,
    /// The medium is not opened.
    Medium(OpenError),
    /// The flash of the saved device was divided otherwise.
    Geometry,
    /// The bytes are not as many as a device over this flash is saved as.
    Size { found: u64, wanted: u64 },
}
