// How many steps are left to a run.
ghost use Rattle.std.specs.Prelude.{◌≡◌, ◌-◌, ◌<◌, ◌≤◌, nat_le, IsTrue, ◌↔◌};

use std::marker::Model;

/// The steps that are left to the runs that share it.
#[derive(Clone, Copy, Debug, PartialEq, Eq)]
pub struct Budget {
    left: u64,
}

impl Model for Budget {
    ghost use Rattle.std.specs.Prelude.{ℕ};

    ghost Value = { ℕ };

    ghost view = { λ b. b.left };

    ghost inverse = { λ n. record { left = n } };
}

impl Budget {
    pub fn new(steps: u64) -> Budget
        ensures { result ≡ steps }
    {
        Budget { left: steps }
    }

    pub fn left(&self) -> u64
        ensures { result ≡ self.now }
    {
        self.left
    }

    /// Takes so many steps together, or else all that are left.
    pub fn take(&mut self, steps: u64) -> bool
        ensures paid { result ≡ nat_le steps self.old }
        ensures left { self.new ≡ self.old - steps }
    {
        let enough = steps <= self.left;
        self.left = self.left.saturating_sub(steps);
        enough
    }
}
