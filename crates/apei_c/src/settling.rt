// How an execution is ended without its client.
ghost use Rattle.std.specs.Prelude.{◌≡◌};
ghost use Rattle.apei_c.specs.Handles.{OnPort};
ghost use Rattle.apei_c.specs.Settling.{SettlesOn, status_of_settling};

use crate::handle::Handle;
use crate::status::Status;
use erst_port::{Port, PortError};

impl Status {
    // That of an execution that goes on.
    fn of_settling(answer: Result<bool, PortError>) -> Status
        ensures { result ≡ status_of_settling answer }
    {
        match answer {
            Ok(true) => Status::Done,
            Ok(false) => Status::Nothing,
            Err(error) => Status::of_access(Err(error)),
        }
    }
}

fn settle(port: &mut Port) -> Status
    ensures { SettlesOn port.old result port.new }
{
    Status::of_settling(port.settle())
}

/// Has the execution that runs go on, as one poll of the guest would.
#[unsafe(no_mangle)]
pub extern "C" fn apei_c_erst_settle(erst: &mut Handle) -> u32
    ensures { OnPort erst.old.owner.port result erst.new.owner.port SettlesOn }
{
    let Some(port) = erst.port() else {
        return Status::Closed.number();
    };
    settle(port).number()
}
