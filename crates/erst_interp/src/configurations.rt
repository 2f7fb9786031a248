// What a run keeps from one instruction to the next.
ghost use Rattle.std.specs.Prelude.{◌≡◌, ◌<◌, ◌≤◌, ◌^◌, if◌then◌else◌, true};
ghost use Rattle.erst_interp.specs.Configurations.{begin, next};

use erst_entries::Entry;

/// The place in the program, the last result, the two variables, the bases of MOVE_DATA, and whether
/// STALL_WHILE_TRUE is to wait before it compares.
#[derive(Clone, Copy)]
pub struct Configuration {
    pub place: usize,
    pub result: Option<u64>,
    pub var1: u64,
    pub var2: u64,
    pub source: u64,
    pub target: u64,
    pub stalling: bool,
}

impl Configuration {
    /// The first of a run.
    pub fn begin() -> Configuration
        ensures { result ≡ begin }
    {
        Configuration {
            place: 0,
            result: None,
            var1: 0,
            var2: 0,
            source: 0,
            target: 0,
            stalling: false,
        }
    }

    /// The same at the next place.
    pub fn next(self) -> Configuration
        requires { self.place ≤ 2 ^ 63 }
        ensures { result ≡ next self }
    {
        Configuration {
            place: self.place + 1,
            stalling: false,
            ..self
        }
    }

    /// Where STALL_WHILE_TRUE goes on after a comparison.
    pub fn compared(self, equal: bool) -> Configuration
        requires { self.place < 2 ^ 63 }
        ensures { result ≡ (if equal then record self { stalling = true } else next self) }
    {
        if equal {
            Configuration {
                stalling: true,
                ..self
            }
        } else {
            self.next()
        }
    }
}

/// An instruction entry, in the configuration in which a run comes to it.
#[derive(Clone, Copy)]
pub struct Task {
    pub entry: Entry,
    /// The value that the run was given.
    pub given: u64,
    /// The program's length.
    pub len: usize,
    pub at: Configuration,
}
