// Commands that are generated.
ghost use Rattle.std.specs.Prelude.{◌≡◌, ◌≤◌, ◌+◌, ◌*◌, ◌%◌, ◌^◌, ◌/◌};
ghost use Rattle.apei_cli.specs.Commands.{command_of};

/// A command that is generated.
#[derive(Clone, Copy)]
pub enum Command {
    /// Writes a record of an identifier and so many bytes.
    Write { id: u64, size: u64 },
    Clear { id: u64 },
    Read { id: u64 },
    /// Asks for the next identifier.
    Next,
}

/// The number behind another in a linear congruential sequence.
pub fn number_behind(number: u64) -> u64
    ensures { result ≡ (number * 6364136223846793005 + 1442695040888963407) % 2 ^ 64 }
{
    number
        .wrapping_mul(6_364_136_223_846_793_005)
        .wrapping_add(1_442_695_040_888_963_407)
}

impl Command {
    /// The command that a number of the sequence stands for.
    pub fn of(number: u64) -> Command
        ensures { result ≡ command_of (number / 2 ^ 33) }
    {
        let drawn = number >> 33;
        let id = 1 + drawn / 8 % 40;
        match drawn % 8 {
            0..=4 => {
                Command::Write {
                    id,
                    size: 128 + 16 * (drawn / 512 % 16),
                }
            }
            5 => Command::Clear { id },
            6 => Command::Read { id },
            _ => Command::Next,
        }
    }
}
