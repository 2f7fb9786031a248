// The owner of a port, in a type that C may hold.
ghost use Rattle.std.specs.Prelude.{◌≡◌, Option, Some, None, IsSome};
ghost use Rattle.std.specs.Borrow.{sem};
ghost use Rattle.erst_port.specs.PortState.{PortState};
ghost use Rattle.apei_c.specs.Owners.{owns_port, port_code};

use crate::boxes::BoxParts;
use erst_port::Port;
use std::alloc::Global;
use std::marker::Model;

/// The owner of a port on the heap, or of none. C sees a pointer to nothing that it knows.
#[repr(C)]
#[derive(Drop)]
pub struct PortOwner {
    at: *mut u8,
    alloc: Global,
    pub ghost port: { Option PortState } by { port_code },
}

impl Model for PortOwner {
    ghost also_owns = { λ owner. owns_port owner.alloc owner.at owner.port };
}

impl PortOwner {
    ghost use Rattle.apei_c.specs.Lending.{OwnerLends};

    /// The owner of none, whatever its pointer is.
    pub fn none(at: *mut u8, alloc: Global) -> PortOwner
        ensures { result.port ≡ None }
    {
        PortOwner { at, alloc }
    }

    /// The owner of a port.
    pub fn of(parts: BoxParts<Port, Global>) -> PortOwner
        ensures { result.port ≡ Some parts.value }
    {
        let BoxParts { ptr, alloc } = parts;
        PortOwner {
            at: ptr as *mut u8,
            alloc,
        }
    }

    /// The port that it owns.
    pub fn into_parts(self) -> BoxParts<Port, Global>
        requires { IsSome self.port }
        ensures { self.port ≡ Some result.value }
    {
        let PortOwner { at, alloc } = self;
        BoxParts {
            ptr: at as *mut Port,
            alloc,
        }
    }

    /// Lends the port that it owns.
    pub fn port(&mut self) -> &mut Port
        requires { IsSome self.old.port }
        ensures* writes_back { sem 𝓛 (OwnerLends self.entry result) }
        ensures value { self.old.port ≡ Some result.now }
    {
        unsafe { &mut *(self.at as *mut Port) }
    }
}
