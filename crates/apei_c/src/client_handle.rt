// C's handle of a session.
ghost use Rattle.std.specs.Prelude.{◌≡◌, Option, Some, None, is_some, IfSome, IfNone};
ghost use Rattle.std.specs.Borrow.{sem};

use crate::boxes::BoxParts;
use crate::client_owner::ClientOwner;
use erst_session::Session;
use std::alloc::Global;
use std::mem::replace;
use std::ptr::null_mut;

/// The owner of a session, or of none, and which of the two. With all its bytes 0 it owns none.
#[repr(C)]
#[derive(Drop)]
pub struct ClientHandle {
    pub owner: ClientOwner,
    pub is_open: bool,
    pub ghost open: { is_open ≡ is_some owner.session },
}

fn nowhere() -> *mut u8 {
    null_mut()
}

impl ClientHandle {
    ghost use Rattle.apei_c.specs.ClientLending.{ClientHandleLends};

    /// The owner of none.
    fn closed(alloc: Global) -> ClientHandle
        ensures { result.owner.session ≡ None }
    {
        let owner = ClientOwner::none(nowhere(), alloc);
        ClientHandle {
            owner,
            is_open: false,
        }
    }

    /// The owner of a session.
    fn of(session: Box<Session>) -> ClientHandle
        ensures { result.owner.session ≡ Some session.value }
    {
        let owner = ClientOwner::of(BoxParts::of(session));
        ClientHandle {
            owner,
            is_open: true,
        }
    }

    /// Lends the session, where there is one.
    pub fn session(&mut self) -> Option<&mut Session>
        ensures* writes_back { sem 𝓛 (ClientHandleLends self.entry result) }
        ensures some { IfSome result (λ session. self.old.owner.session ≡ Some session.now) }
        ensures none { IfNone result (self.old.owner.session ≡ None) }
    {
        if self.is_open {
            Some(self.owner.session())
        } else {
            None
        }
    }

    /// The session, which is the handle's no longer.
    pub fn take(&mut self, alloc: Global) -> Option<Box<Session>>
        ensures some { IfSome result (λ session. self.old.owner.session ≡ Some session.value) }
        ensures none { IfNone result (self.old.owner.session ≡ None) }
        ensures left { self.new.owner.session ≡ None }
    {
        let handle = replace(self, ClientHandle::closed(alloc));
        if handle.is_open {
            Some(handle.owner.into_parts().into_box())
        } else {
            None
        }
    }

    /// Gives the handle a session, where it has none.
    pub fn put(&mut self, session: Box<Session>)
        ensures { self.new.owner.session ≡ Some session.value }
    {
        *self = ClientHandle::of(session);
    }
}
