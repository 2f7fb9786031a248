// The handle of C.
ghost use Rattle.std.specs.Prelude.{◌≡◌, Option, Some, None, is_some, IfSome, IfNone};
ghost use Rattle.std.specs.Borrow.{sem};

use crate::boxes::BoxParts;
use crate::owners::PortOwner;
use erst_port::Port;
use std::alloc::Global;
use std::mem::replace;
use std::ptr::null_mut;

/// The owner of a port, or of none, and which of the two. With all its bytes 0 it owns none.
#[repr(C)]
#[derive(Drop)]
pub struct Handle {
    pub owner: PortOwner,
    pub is_open: bool,
    pub ghost open: { is_open ≡ is_some owner.port },
}

fn nowhere() -> *mut u8 {
    null_mut()
}

impl Handle {
    ghost use Rattle.apei_c.specs.Lending.{HandleLends};

    /// The owner of none.
    fn closed(alloc: Global) -> Handle
        ensures { result.owner.port ≡ None }
    {
        let owner = PortOwner::none(nowhere(), alloc);
        Handle {
            owner,
            is_open: false,
        }
    }

    /// The owner of a port.
    fn of(port: Box<Port>) -> Handle
        ensures { result.owner.port ≡ Some port.value }
    {
        let owner = PortOwner::of(BoxParts::of(port));
        Handle {
            owner,
            is_open: true,
        }
    }

    /// Lends the port, where there is one.
    pub fn port(&mut self) -> Option<&mut Port>
        ensures* writes_back { sem 𝓛 (HandleLends self.entry result) }
        ensures some { IfSome result (λ port. self.old.owner.port ≡ Some port.now) }
        ensures none { IfNone result (self.old.owner.port ≡ None) }
    {
        if self.is_open {
            Some(self.owner.port())
        } else {
            None
        }
    }

    /// The port, which is the handle's no longer.
    pub fn take(&mut self, alloc: Global) -> Option<Box<Port>>
        ensures some { IfSome result (λ port. self.old.owner.port ≡ Some port.value) }
        ensures none { IfNone result (self.old.owner.port ≡ None) }
        ensures left { self.new.owner.port ≡ None }
    {
        let handle = replace(self, Handle::closed(alloc));
        if handle.is_open {
            Some(handle.owner.into_parts().into_box())
        } else {
            None
        }
    }

    /// Gives the handle a port, where it has none.
    pub fn put(&mut self, port: Box<Port>)
        ensures { self.new.owner.port ≡ Some port.value }
    {
        *self = Handle::of(port);
    }
}
