// The owner of a session, in a type that C may hold.
ghost use Rattle.std.specs.Prelude.{◌≡◌, Option, Some, None, IsSome};
ghost use Rattle.std.specs.Borrow.{sem};
ghost use Rattle.erst_session.specs.Sessions.{SessionState};
ghost use Rattle.apei_c.specs.ClientOwners.{owns_session, session_code};

use crate::boxes::BoxParts;
use erst_session::Session;
use std::alloc::Global;
use std::marker::Model;

/// The owner of a session on the heap, or of none. C sees a pointer to nothing that it knows.
#[repr(C)]
#[derive(Drop)]
pub struct ClientOwner {
    at: *mut u8,
    alloc: Global,
    pub ghost session: { Option SessionState } by { session_code },
}

impl Model for ClientOwner {
    ghost also_owns = { λ owner. owns_session owner.alloc owner.at owner.session };
}

impl ClientOwner {
    ghost use Rattle.apei_c.specs.ClientLending.{ClientOwnerLends};

    /// The owner of none, whatever its pointer is.
    pub fn none(at: *mut u8, alloc: Global) -> ClientOwner
        ensures { result.session ≡ None }
    {
        ClientOwner { at, alloc }
    }

    /// The owner of a session.
    pub fn of(parts: BoxParts<Session, Global>) -> ClientOwner
        ensures { result.session ≡ Some parts.value }
    {
        let BoxParts { ptr, alloc } = parts;
        ClientOwner {
            at: ptr as *mut u8,
            alloc,
        }
    }

    /// The session that it owns.
    pub fn into_parts(self) -> BoxParts<Session, Global>
        requires { IsSome self.session }
        ensures { self.session ≡ Some result.value }
    {
        let ClientOwner { at, alloc } = self;
        BoxParts {
            ptr: at as *mut Session,
            alloc,
        }
    }

    /// Lends the session that it owns.
    pub fn session(&mut self) -> &mut Session
        requires { IsSome self.old.session }
        ensures* writes_back { sem 𝓛 (ClientOwnerLends self.entry result) }
        ensures value { self.old.session ≡ Some result.now }
    {
        unsafe { &mut *(self.at as *mut Session) }
    }
}
