// The owner of a boot error region, in a type that C may hold.
ghost use Rattle.std.specs.Prelude.{◌≡◌, Option, Some, None, IsSome};
ghost use Rattle.std.specs.Borrow.{sem};
ghost use Rattle.ghes_port.specs.Boot.{BootState};
ghost use Rattle.apei_c.specs.BootOwners.{owns_region, region_code};

use crate::boxes::BoxParts;
use ghes_port::BootRegion;
use std::alloc::Global;
use std::marker::Model;

/// The owner of a boot error region on the heap, or of none. C sees a pointer to nothing that it knows.
#[repr(C)]
#[derive(Drop)]
pub struct BootOwner {
    at: *mut u8,
    alloc: Global,
    pub ghost region: { Option BootState } by { region_code },
}

impl Model for BootOwner {
    ghost also_owns = { λ owner. owns_region owner.alloc owner.at owner.region };
}

impl BootOwner {
    ghost use Rattle.apei_c.specs.BootLending.{BootOwnerLends};

    /// The owner of none, whatever its pointer is.
    pub fn none(at: *mut u8, alloc: Global) -> BootOwner
        ensures { result.region ≡ None }
    {
        BootOwner { at, alloc }
    }

    /// The owner of a boot error region.
    pub fn of(parts: BoxParts<BootRegion, Global>) -> BootOwner
        ensures { result.region ≡ Some parts.value }
    {
        let BoxParts { ptr, alloc } = parts;
        BootOwner {
            at: ptr as *mut u8,
            alloc,
        }
    }

    /// The region that it owns.
    pub fn into_parts(self) -> BoxParts<BootRegion, Global>
        requires { IsSome self.region }
        ensures { self.region ≡ Some result.value }
    {
        let BootOwner { at, alloc } = self;
        BoxParts {
            ptr: at as *mut BootRegion,
            alloc,
        }
    }

    /// Lends the region that it owns.
    pub fn region(&mut self) -> &mut BootRegion
        requires { IsSome self.old.region }
        ensures* writes_back { sem 𝓛 (BootOwnerLends self.entry result) }
        ensures value { self.old.region ≡ Some result.now }
    {
        unsafe { &mut *(self.at as *mut BootRegion) }
    }
}
