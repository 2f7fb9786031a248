// Why a store is refused, and why it refuses a command.
ghost use Rattle.std.specs.Prelude.{◌≡◌};
ghost use Rattle.record_store.specs.declared.errors.StoreError.TheVariants.{Flash};

use flash_model::FlashFailed;
use record_slots::ScanError;

/// A flash that is refused, handed back.
#[derive(Drop)]
pub struct StoreRefused<F> {
    pub why: ScanError,
    pub flash: F,
}

/// Why a command is refused.
#[derive(Clone, Copy, Debug, PartialEq, Eq)]
pub enum StoreError {
    /// Only so many slots are free, which are too few.
    NoSpace { free: u64 },
    /// The stored record has the last generation. It can be cleared, and not replaced.
    LastGeneration { id: u64 },
    /// The identifier is not stored.
    NotFound,
    /// No identifier is stored.
    Empty,
    /// The flash failed.
    Flash,
    /// The record has this many bytes, and the buffer fewer.
    Small { need: u64 },
}

impl StoreError {
    ghost use Rattle.record_store.specs.Answers.{is_flash};

    // Whether it is a fault, after which a store is in doubt.
    pub(crate) fn is_flash(&self) -> bool
        ensures { result ≡ is_flash self.now }
    {
        matches!(self, StoreError::Flash)
    }
}

impl From<FlashFailed> for StoreError {
    ghost from_gives = { λ _ error. error ≡ Flash };

    fn from(_: FlashFailed) -> Self {
        StoreError::Flash
    }
}
