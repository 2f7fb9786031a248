// How a run ended.
ghost use Rattle.std.specs.Prelude.{◌≡◌};
ghost use Rattle.std.specs.Process.{exit_status};

use std::fmt::Display;
use std::process::ExitCode;

/// The end of a program with this exit number. Where it is not 0, what is said of it goes to standard error.
pub fn end<S: Display>(rt: &HostRuntime, said: &S, number: u8) -> ExitCode
    ensures { exit_status result ≡ number }
{
    if number != 0 {
        // Where standard error is closed nothing can be said.
        let _ = eprintln!(rt; "{said}");
    }
    ExitCode::from(number)
}
