// What was played, by its kind.
ghost use Rattle.std.specs.Prelude.{◌≡◌, ◌^◌, ◌+◌, ◌<◌, []};
ghost use Rattle.apei_cli.specs.Tallies.{HasRoom, counted_kind, counted_refusal};
ghost use Rattle.apei_cli.specs.Generated.{tally_of};

use crate::generate::command::Command;

/// How many commands of each kind were played, and how many of them all were refused.
#[derive(Clone, Copy)]
pub struct Tally {
    pub writes: u64,
    pub clears: u64,
    pub reads: u64,
    pub nexts: u64,
    pub refused: u64,
}

impl Tally {
    /// None were played.
    pub fn new() -> Tally
        ensures { result ≡ tally_of [] }
    {
        Tally {
            writes: 0,
            clears: 0,
            reads: 0,
            nexts: 0,
            refused: 0,
        }
    }

    /// Counts one more.
    pub fn count(&mut self, command: Command, refused: bool)
        requires { HasRoom self.old }
        ensures { self.new ≡ counted_refusal refused (counted_kind command self.old) }
    {
        match command {
            Command::Write { .. } => self.writes += 1,
            Command::Clear { .. } => self.clears += 1,
            Command::Read { .. } => self.reads += 1,
            Command::Next => self.nexts += 1,
        }
        if refused {
            self.refused += 1;
        }
    }
}
