// How a change that fails leaves its range.
ghost use Rattle.std.specs.Prelude.{◌≡◌};
ghost use Rattle.flash_model.specs.Simulation.{listed_tear};

/// What a change that fails leaves in its range.
#[derive(Clone, Copy, Debug, PartialEq, Eq)]
pub enum Tear {
    /// The range stays.
    Nothing = 0,
    /// The change is done, and still answers a failure.
    Whole = 1,
    /// Each byte of the range becomes 0x00.
    Zeros = 2,
    /// Each byte of the range becomes 0xA5.
    Marks = 3,
}

/// How a list of changes that fail, each with its number, has change number `step` torn.
pub(crate) fn listed_tear(failing: &[(u64, Tear)], step: u64) -> Option<Tear>
    ensures { result ≡ listed_tear failing.now step }
{
    failing.iter().find(|one| one.0 == step).map(|one| one.1)
}
