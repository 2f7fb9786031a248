// C's calls on a boot error region.
ghost use Rattle.std.specs.Prelude.{◌≡◌, IfOk, IfErr};
ghost use Rattle.apei_c.specs.declared.status.Status.{Status as AnyStatus};
ghost use Rattle.apei_c.specs.Statuses.{number_of};
ghost use Rattle.apei_c.specs.Holding.{OnHeld, LooksAtHeld, GetsHeld, LosesHeld};
ghost use Rattle.apei_c.specs.BootCalls.{IsBegunAt, RefusesRegion, LaysBlock, TellsBoot, BootGoesOn, TellsBert};

use crate::boot_handle::BootHandle;
use crate::buffers::fill;
use crate::guest_accesses::tell;
use crate::source_structs::GuestAccess;
use crate::status::Status;
use ghes_port::{BootRegion, bert, is_misplaced};
use std::alloc::Global;

fn opened(alloc: Global, at: u64, length: u32) -> Result<Box<BootRegion>, Status>
    ensures opened { IfOk result (λ region. IsBegunAt at length region.value) }
    ensures refused { IfErr result (RefusesRegion at length) }
{
    match BootRegion::new(alloc, at, length) {
        Ok(region) => match Box::new(alloc, region) {
            Ok(region) => Ok(region),
            Err(_) => Err(Status::Memory),
        },
        Err(error) => Err(Status::of_laying(error)),
    }
}

fn lay(region: &mut BootRegion, block: &[u8]) -> Status
    ensures { LaysBlock block.now region.old result region.new }
{
    match region.lay(block) {
        Ok(()) => Status::Done,
        Err(error) => Status::of_laying(error),
    }
}

fn tell_access(region: &BootRegion, access: &mut GuestAccess, bytes: &mut [u8]) -> Status
    ensures { TellsBoot region.now access.old bytes.old result access.new bytes.new }
{
    if bytes.len() < 64 {
        return Status::Short;
    }
    let found = region.access(bytes);
    tell(found, access)
}

fn done(region: &mut BootRegion) -> Status
    ensures { BootGoesOn region.old result region.new }
{
    Status::of_outcome(region.done())
}

fn tell_table(at: u64, length: u32, table: &mut [u8]) -> Status
    ensures { TellsBert at length table.old result table.new }
{
    if is_misplaced(at, length) {
        return Status::Region;
    }
    let found = bert(at, length);
    if fill(table, &found) {
        Status::Done
    } else {
        Status::Short
    }
}

/// Opens a boot error region.
#[unsafe(no_mangle)]
pub extern "C" fn apei_c_boot_open(
    alloc: Global,
    boot: &mut BootHandle,
    at: u64,
    length: u32,
) -> u32
    ensures { GetsHeld (boot.new.owner.region ≡ boot.old.owner.region) (IsBegunAt at length) (RefusesRegion at length)
        boot.old.owner.region result boot.new.owner.region }
{
    if boot.is_open {
        return Status::Open.number();
    }
    match opened(alloc, at, length) {
        Ok(region) => {
            boot.put(region);
            Status::Done.number()
        }
        Err(status) => status.number(),
    }
}

/// Closes it, and frees its memory.
#[unsafe(no_mangle)]
pub extern "C" fn apei_c_boot_close(alloc: Global, boot: &mut BootHandle) -> u32
    ensures { LosesHeld boot.old.owner.region result boot.new.owner.region }
{
    match boot.take(alloc) {
        Some(region) => {
            drop(region);
            Status::Done.number()
        }
        None => Status::Closed.number(),
    }
}

/// Begins to lay a fatal block behind those that were laid.
#[unsafe(no_mangle)]
pub extern "C" fn apei_c_boot_lay(boot: &mut BootHandle, block: &[u8]) -> u32
    ensures { OnHeld boot.old.owner.region result boot.new.owner.region (LaysBlock block.now) }
{
    let Some(region) = boot.region() else {
        return Status::Closed.number();
    };
    lay(region, block).number()
}

/// What is to be done next, with the bytes of a write.
#[unsafe(no_mangle)]
pub extern "C" fn apei_c_boot_access(
    boot: &mut BootHandle,
    access: &mut GuestAccess,
    bytes: &mut [u8],
) -> u32
    ensures { LooksAtHeld boot.old.owner.region result boot.new.owner.region
        ((access.new ≡ access.old) × (bytes.new ≡ bytes.old))
        (λ region status. TellsBoot region access.old bytes.old status access.new bytes.new) }
{
    let Some(region) = boot.region() else {
        return Status::Closed.number();
    };
    tell_access(region, access, bytes).number()
}

/// Says that it is done.
#[unsafe(no_mangle)]
pub extern "C" fn apei_c_boot_done(boot: &mut BootHandle) -> u32
    ensures { OnHeld boot.old.owner.region result boot.new.owner.region BootGoesOn }
{
    let Some(region) = boot.region() else {
        return Status::Closed.number();
    };
    done(region).number()
}

/// The table of a region.
#[unsafe(no_mangle)]
pub extern "C" fn apei_c_boot_table(at: u64, length: u32, table: &mut [u8]) -> u32
    ensures { (status : AnyStatus) × (result ≡ number_of status) × TellsBert at length table.old status table.new }
{
    tell_table(at, length, table).number()
}
