// How a device goes on after its medium failed a change.
ghost use Rattle.std.specs.Prelude.{◌≡◌};
ghost use Rattle.apei_c.specs.Handles.{OnPort};
ghost use Rattle.apei_c.specs.Failing.{GoesOnOver, status_of_reopening};

use crate::handle::Handle;
use crate::status::Status;
use erst_port::{Port, ReopenError};
use std::alloc::Global;

impl Status {
    // That of a device that goes on.
    fn of_reopening(answer: Result<(), ReopenError>) -> Status
        ensures { result ≡ status_of_reopening answer }
    {
        match answer {
            Ok(()) => Status::Done,
            Err(ReopenError::Medium(error)) => Status::of_opening(error),
            Err(ReopenError::Geometry) => Status::Geometry,
        }
    }
}

fn failed(alloc: Global, port: &mut Port, medium: &[u8]) -> Status
    ensures { GoesOnOver medium.now port.old result port.new }
{
    Status::of_reopening(port.failed(alloc, medium))
}

/// Says that the medium failed the change that is due, and what it holds now.
#[unsafe(no_mangle)]
pub extern "C" fn apei_c_erst_failed(alloc: Global, erst: &mut Handle, medium: &[u8]) -> u32
    ensures { OnPort erst.old.owner.port result erst.new.owner.port (GoesOnOver medium.now) }
{
    let Some(port) = erst.port() else {
        return Status::Closed.number();
    };
    failed(alloc, port, medium).number()
}
