// What a run wants done on a space.
ghost use Rattle.std.specs.Prelude.{◌≡◌};
ghost use Rattle.erst_interp.specs.Demands.{call_of};

use apei_space::{Space, SpaceFault};
use apei_tables::{Place, Width};

/// An access of a space, or a wait, that is yet to be made.
#[derive(Clone, Copy, Debug, PartialEq, Eq)]
pub enum Demand {
    /// Reads a register.
    Load {
        place: Place,
        width: Width,
    },
    /// Writes a register.
    Store {
        place: Place,
        width: Width,
        value: u64,
    },
    /// Waits so many microseconds.
    Pause {
        micros: u64,
    },
    /// Copies so many bytes of memory, which may overlap their target.
    Move {
        source: u64,
        target: u64,
        len: u32,
    },
}

impl Demand {
    /// Makes it on a space. What answers no number answers 0.
    #[inline(always)]
    pub fn make<S: Space>(self, space: &mut S) -> Result<u64, SpaceFault>
        ensures { S.allows (S.state space.old) (call_of self result) (S.state space.new) }
    {
        match self {
            Demand::Load { place, width } => space.read(place, width),
            Demand::Store {
                place,
                width,
                value,
            } => match space.write(place, width, value) {
                Ok(()) => Ok(0),
                Err(fault) => Err(fault),
            },
            Demand::Pause { micros } => {
                space.wait(micros);
                Ok(0)
            }
            Demand::Move {
                source,
                target,
                len,
            } => match space.copy(source, target, len) {
                Ok(()) => Ok(0),
                Err(fault) => Err(fault),
            },
        }
    }
}
