// C's handle of error sources.
ghost use Rattle.std.specs.Prelude.{◌≡◌, Option, Some, None, is_some, IfSome, IfNone};
ghost use Rattle.std.specs.Borrow.{sem};

use crate::boxes::BoxParts;
use crate::sources_owner::SourcesOwner;
use ghes_port::Sources;
use std::alloc::Global;
use std::mem::replace;
use std::ptr::null_mut;

/// The owner of error sources, or of none, and which of the two. With all its bytes 0 it owns none.
#[repr(C)]
#[derive(Drop)]
pub struct SourcesHandle {
    pub owner: SourcesOwner,
    pub is_open: bool,
    pub ghost open: { is_open ≡ is_some owner.sources },
}

fn nowhere() -> *mut u8 {
    null_mut()
}

impl SourcesHandle {
    ghost use Rattle.apei_c.specs.SourcesLending.{SourcesHandleLends};

    /// The owner of none.
    fn closed(alloc: Global) -> SourcesHandle
        ensures { result.owner.sources ≡ None }
    {
        let owner = SourcesOwner::none(nowhere(), alloc);
        SourcesHandle {
            owner,
            is_open: false,
        }
    }

    /// The owner of error sources.
    fn of(sources: Box<Sources>) -> SourcesHandle
        ensures { result.owner.sources ≡ Some sources.value }
    {
        let owner = SourcesOwner::of(BoxParts::of(sources));
        SourcesHandle {
            owner,
            is_open: true,
        }
    }

    /// Lends the sources, where there are any.
    pub fn sources(&mut self) -> Option<&mut Sources>
        ensures* writes_back { sem 𝓛 (SourcesHandleLends self.entry result) }
        ensures some { IfSome result (λ sources. self.old.owner.sources ≡ Some sources.now) }
        ensures none { IfNone result (self.old.owner.sources ≡ None) }
    {
        if self.is_open {
            Some(self.owner.sources())
        } else {
            None
        }
    }

    /// The sources, which are the handle's no longer.
    pub fn take(&mut self, alloc: Global) -> Option<Box<Sources>>
        ensures some { IfSome result (λ sources. self.old.owner.sources ≡ Some sources.value) }
        ensures none { IfNone result (self.old.owner.sources ≡ None) }
        ensures left { self.new.owner.sources ≡ None }
    {
        let handle = replace(self, SourcesHandle::closed(alloc));
        if handle.is_open {
            Some(handle.owner.into_parts().into_box())
        } else {
            None
        }
    }

    /// Gives the handle sources, where it has none.
    pub fn put(&mut self, sources: Box<Sources>)
        ensures { self.new.owner.sources ≡ Some sources.value }
    {
        *self = SourcesHandle::of(sources);
    }
}
