// C's handle of a boot error region.
ghost use Rattle.std.specs.Prelude.{◌≡◌, Option, Some, None, is_some, IfSome, IfNone};
ghost use Rattle.std.specs.Borrow.{sem};

use crate::boot_owner::BootOwner;
use crate::boxes::BoxParts;
use ghes_port::BootRegion;
use std::alloc::Global;
use std::mem::replace;
use std::ptr::null_mut;

/// The owner of a boot error region, or of none, and which of the two. With all its bytes 0 it owns none.
#[repr(C)]
#[derive(Drop)]
pub struct BootHandle {
    pub owner: BootOwner,
    pub is_open: bool,
    pub ghost open: { is_open ≡ is_some owner.region },
}

fn nowhere() -> *mut u8 {
    null_mut()
}

impl BootHandle {
    ghost use Rattle.apei_c.specs.BootLending.{BootHandleLends};

    /// The owner of none.
    fn closed(alloc: Global) -> BootHandle
        ensures { result.owner.region ≡ None }
    {
        let owner = BootOwner::none(nowhere(), alloc);
        BootHandle {
            owner,
            is_open: false,
        }
    }

    /// The owner of a boot error region.
    fn of(region: Box<BootRegion>) -> BootHandle
        ensures { result.owner.region ≡ Some region.value }
    {
        let owner = BootOwner::of(BoxParts::of(region));
        BootHandle {
            owner,
            is_open: true,
        }
    }

    /// Lends the region, where there is one.
    pub fn region(&mut self) -> Option<&mut BootRegion>
        ensures* writes_back { sem 𝓛 (BootHandleLends self.entry result) }
        ensures some { IfSome result (λ region. self.old.owner.region ≡ Some region.now) }
        ensures none { IfNone result (self.old.owner.region ≡ None) }
    {
        if self.is_open {
            Some(self.owner.region())
        } else {
            None
        }
    }

    /// The region, which is the handle's no longer.
    pub fn take(&mut self, alloc: Global) -> Option<Box<BootRegion>>
        ensures some { IfSome result (λ region. self.old.owner.region ≡ Some region.value) }
        ensures none { IfNone result (self.old.owner.region ≡ None) }
        ensures left { self.new.owner.region ≡ None }
    {
        let handle = replace(self, BootHandle::closed(alloc));
        if handle.is_open {
            Some(handle.owner.into_parts().into_box())
        } else {
            None
        }
    }

    /// Gives the handle a region, where it has none.
    pub fn put(&mut self, region: Box<BootRegion>)
        ensures { self.new.owner.region ≡ Some region.value }
    {
        *self = BootHandle::of(region);
    }
}
