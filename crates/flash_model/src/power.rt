// The power of a simulated flash.
ghost use Rattle.std.specs.Prelude.{◌≡◌, ◌↔◌, if◌then◌else◌, IsTrue};
ghost use Rattle.base_model.specs.Flash.{next_count};

use crate::counts::next_count;
use crate::tear::listed_tear;
use crate::{Cut, Tear};

/// The power of a simulated flash: on for good, on until a cut, or lost.
#[derive(Clone, Copy)]
pub enum Power {
    On,
    Until(Cut),
    Lost,
}

impl Power {
    ghost use Rattle.flash_model.specs.Simulation.{first_power, has_power, power_after, power_restored, tear_at};
    ghost use Rattle.flash_model.specs.declared.power.Power.TheVariants.{Lost};

    pub(crate) fn new(cut: Option<Cut>) -> Power
        ensures { result ≡ first_power cut }
    {
        match cut {
            Some(cut) => Power::Until(cut),
            None => Power::On,
        }
    }

    pub(crate) fn is_lost(self) -> bool
        ensures { IsTrue result ↔ (self ≡ Lost) }
    {
        match self {
            Power::Lost => true,
            _ => false,
        }
    }

    /// The calls that found no power, after one more.
    pub(crate) fn count_unpowered(self, unpowered: u64) -> u64
        ensures { result ≡ (if has_power self then unpowered else next_count unpowered) }
    {
        match self {
            Power::Lost => next_count(unpowered),
            _ => unpowered,
        }
    }

    pub(crate) fn after(self, step: u64) -> Power
        ensures { result ≡ power_after self step }
    {
        match self {
            Power::Until(cut) if cut.step == step => Power::Lost,
            power => power,
        }
    }

    pub(crate) fn restored(self) -> Power
        ensures { result ≡ power_restored self }
    {
        match self {
            Power::Lost => Power::On,
            power => power,
        }
    }

    pub(crate) fn tear_at(self, failing: &[(u64, Tear)], step: u64) -> Option<Tear>
        ensures { result ≡ tear_at self failing.now step }
    {
        match self {
            Power::Until(cut) if cut.step == step => Some(cut.tear),
            _ => listed_tear(failing, step),
        }
    }
}
