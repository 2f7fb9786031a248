// The owner of error sources, in a type that C may hold.
ghost use Rattle.std.specs.Prelude.{◌≡◌, Option, Some, None, IsSome};
ghost use Rattle.std.specs.Borrow.{sem};
ghost use Rattle.ghes_port.specs.Several.{SourcesState};
ghost use Rattle.apei_c.specs.SourcesOwners.{owns_sources, sources_code};

use crate::boxes::BoxParts;
use ghes_port::Sources;
use std::alloc::Global;
use std::marker::Model;

/// The owner of error sources on the heap, or of none. C sees a pointer to nothing that it knows.
#[repr(C)]
#[derive(Drop)]
pub struct SourcesOwner {
    at: *mut u8,
    alloc: Global,
    pub ghost sources: { Option SourcesState } by { sources_code },
}

impl Model for SourcesOwner {
    ghost also_owns = { λ owner. owns_sources owner.alloc owner.at owner.sources };
}

impl SourcesOwner {
    ghost use Rattle.apei_c.specs.SourcesLending.{SourcesOwnerLends};

    /// The owner of none, whatever its pointer is.
    pub fn none(at: *mut u8, alloc: Global) -> SourcesOwner
        ensures { result.sources ≡ None }
    {
        SourcesOwner { at, alloc }
    }

    /// The owner of error sources.
    pub fn of(parts: BoxParts<Sources, Global>) -> SourcesOwner
        ensures { result.sources ≡ Some parts.value }
    {
        let BoxParts { ptr, alloc } = parts;
        SourcesOwner {
            at: ptr as *mut u8,
            alloc,
        }
    }

    /// The sources that it owns.
    pub fn into_parts(self) -> BoxParts<Sources, Global>
        requires { IsSome self.sources }
        ensures { self.sources ≡ Some result.value }
    {
        let SourcesOwner { at, alloc } = self;
        BoxParts {
            ptr: at as *mut Sources,
            alloc,
        }
    }

    /// Lends the sources that it owns.
    pub fn sources(&mut self) -> &mut Sources
        requires { IsSome self.old.sources }
        ensures* writes_back { sem 𝓛 (SourcesOwnerLends self.entry result) }
        ensures value { self.old.sources ≡ Some result.now }
    {
        unsafe { &mut *(self.at as *mut Sources) }
    }
}
