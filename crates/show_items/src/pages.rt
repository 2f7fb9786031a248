// Where what is shown goes to.
ghost use Rattle.std.specs.Prelude.{◌≡◌, ◌≢◌, ℕ, List, Option, IfErr, OnErr, OnOk};
ghost use Rattle.std.specs.Io.KnownBytes.{Appends, append_known};
ghost use Rattle.show_items.specs.Beginnings.{IsBegun};
ghost use Rattle.show_items.specs.Stops.{Failures, HasStop};
ghost use Rattle.show_items.specs.declared.pages.Stop.TheVariants.{Memory as WantOfMemory};

use std::alloc::{AllocError, AllocFailed};

/// Why no more is shown.
#[derive(Clone, Copy, Debug, PartialEq, Eq)]
pub enum Stop {
    /// There is no memory.
    Memory,
    /// The output can't be written.
    Output,
    /// Nobody reads the output any more.
    Closed,
}

impl From<AllocError> for Stop {
    ghost from_gives = { λ _ stop. stop ≡ WantOfMemory };

    fn from(_: AllocError) -> Stop {
        Stop::Memory
    }
}

impl<T: Drop> From<AllocFailed<T>> for Stop {
    ghost from_gives = { λ _ stop. stop ≡ WantOfMemory };

    fn from(_: AllocFailed<T>) -> Stop {
        Stop::Memory
    }
}

/// What takes pages of the output.
pub trait Pages {
    // The bytes of all pages that were written, where they are known.
    ghost written: { Self → Option (List ℕ) };

    // The pages that could not be written so far.
    ghost failures: { Self → Failures };

    /// Writes a page.
    fn write(&mut self, page: &[u8]) -> Result<(), Stop>
        ensures bytes { OnOk result (Appends (written self.old) (written self.new) page.now) }
        ensures cause { HasStop (failures self.old) (failures self.new) result }
        ensures reason { IfErr result (λ stop. stop ≢ WantOfMemory) }
        ensures stopped { OnErr result (IsBegun (written self.old) (append_known (written self.old) page.now)
            (written self.new)) };
}
