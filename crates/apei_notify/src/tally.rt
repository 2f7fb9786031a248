// A listener that only counts.
ghost use Rattle.std.specs.Prelude.{◌≡◌, ◌/◌, ◌%◌, ◌^◌, ◌==◌, ◌&&◌, nat_lt};

use crate::listener::Listener;

/// Counts the errors whose severity is below 4 and whose bit of a mask is set.
#[derive(Clone, Copy, Debug, PartialEq, Eq)]
pub struct Tally {
    mask: u8,
    heard: u64,
}

impl Tally {
    /// Bit 0 is for recoverable errors, 1 for fatal ones, 2 for corrected ones and 3 for those of severity 3.
    pub fn new(mask: u8) -> Tally
        ensures { result ≡ record { mask = mask; heard = 0 } }
    {
        Tally { mask, heard: 0 }
    }
}

impl Listener for Tally {
    ghost hearing = { λ tally. record {
      wants = λ severity. nat_lt severity 4 && tally.mask / 2 ^ severity % 2 == 1;
      count = tally.heard;
      last = λ severity block. Unit {0};
    } };

    fn wants(&self, severity: u32) -> bool {
        severity < 4 && self.mask >> severity & 1 == 1
    }

    fn hear(&mut self, _severity: u32, _block: &[u8]) {
        self.heard = self.heard.saturating_add(1);
    }

    fn heard(&self) -> u64 {
        self.heard
    }
}
