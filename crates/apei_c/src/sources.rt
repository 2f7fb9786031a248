// C's calls on error sources.
ghost use Rattle.std.specs.Prelude.{◌≡◌, IfOk, OnOk, IfErr};
ghost use Rattle.apei_c.specs.Holding.{OnHeld, LooksAtHeld, GetsHeld, LosesHeld};
ghost use Rattle.apei_c.specs.SourceCalls.{IsOpenedBy, RefusesNumbers, Submits, GoesOn, StartsAgain, TellsAccess, TellsHest, unacknowledged_of};

use crate::source_calls;
use crate::source_setups::{check_types, setups_of};
use crate::source_status::tell_index;
use crate::source_structs::{GuestAccess, SourceNumbers};
use crate::sources_handle::SourcesHandle;
use crate::status::Status;
use ghes_port::Sources;
use std::alloc::Global;

fn opened(alloc: Global, numbers: &[SourceNumbers], index: &mut u64) -> Result<Box<Sources>, Status>
    ensures opened { IfOk result (λ sources. IsOpenedBy numbers.now sources.value) }
    ensures untold { OnOk result (index.new ≡ index.old) }
    ensures refused { IfErr result (λ status. RefusesNumbers numbers.now index.old status index.new) }
{
    if let Err(at) = check_types(numbers) {
        *index = at as u64;
        return Err(Status::SourceType);
    }
    let Ok(setups) = setups_of(alloc, numbers) else {
        return Err(Status::Memory);
    };
    match Sources::open(alloc, &setups) {
        Ok(sources) => match Box::new(alloc, sources) {
            Ok(sources) => Ok(sources),
            Err(_) => Err(Status::Memory),
        },
        Err(error) => {
            tell_index(error, index);
            Err(Status::of_sources(error))
        }
    }
}

/// Opens error sources.
#[unsafe(no_mangle)]
pub extern "C" fn apei_c_ghes_open(
    alloc: Global,
    ghes: &mut SourcesHandle,
    numbers: &[SourceNumbers],
    index: &mut u64,
) -> u32
    ensures { GetsHeld (index.new ≡ index.old)
        (λ sources. IsOpenedBy numbers.now sources × (index.new ≡ index.old))
        (λ status. RefusesNumbers numbers.now index.old status index.new)
        ghes.old.owner.sources result ghes.new.owner.sources }
{
    if ghes.is_open {
        return Status::Open.number();
    }
    match opened(alloc, numbers, index) {
        Ok(sources) => {
            ghes.put(sources);
            Status::Done.number()
        }
        Err(status) => status.number(),
    }
}

/// Closes them, and frees their memory.
#[unsafe(no_mangle)]
pub extern "C" fn apei_c_ghes_close(alloc: Global, ghes: &mut SourcesHandle) -> u32
    ensures { LosesHeld ghes.old.owner.sources result ghes.new.owner.sources }
{
    match ghes.take(alloc) {
        Some(sources) => {
            drop(sources);
            Status::Done.number()
        }
        None => Status::Closed.number(),
    }
}

/// The table that states them.
#[unsafe(no_mangle)]
pub extern "C" fn apei_c_ghes_table(
    ghes: &mut SourcesHandle,
    table: &mut [u8],
    size: &mut u64,
) -> u32
    ensures { LooksAtHeld ghes.old.owner.sources result ghes.new.owner.sources
        ((table.new ≡ table.old) × (size.new ≡ size.old))
        (λ sources status. TellsHest sources table.old status table.new size.new) }
{
    let Some(sources) = ghes.sources() else {
        return Status::Closed.number();
    };
    source_calls::table(sources, table, size).number()
}

/// Takes an error status block over for a source.
#[unsafe(no_mangle)]
pub extern "C" fn apei_c_ghes_submit(ghes: &mut SourcesHandle, source: u32, block: &[u8]) -> u32
    ensures { OnHeld ghes.old.owner.sources result ghes.new.owner.sources (Submits source block.now) }
{
    let Some(sources) = ghes.sources() else {
        return Status::Closed.number();
    };
    source_calls::submit(sources, source, block).number()
}

/// What is to be done next for a source, with the bytes of a write.
#[unsafe(no_mangle)]
pub extern "C" fn apei_c_ghes_access(
    ghes: &mut SourcesHandle,
    source: u32,
    access: &mut GuestAccess,
    bytes: &mut [u8],
) -> u32
    ensures { LooksAtHeld ghes.old.owner.sources result ghes.new.owner.sources
        ((access.new ≡ access.old) × (bytes.new ≡ bytes.old))
        (λ sources status. TellsAccess source sources access.old bytes.old status access.new bytes.new) }
{
    let Some(sources) = ghes.sources() else {
        return Status::Closed.number();
    };
    source_calls::access(sources, source, access, bytes).number()
}

/// Says that it is done, and for a read which number was read.
#[unsafe(no_mangle)]
pub extern "C" fn apei_c_ghes_done(ghes: &mut SourcesHandle, source: u32, value: u64) -> u32
    ensures { OnHeld ghes.old.owner.sources result ghes.new.owner.sources (GoesOn source value) }
{
    let Some(sources) = ghes.sources() else {
        return Status::Closed.number();
    };
    source_calls::done(sources, source, value).number()
}

/// A guest starts again: the source is before its first access.
#[unsafe(no_mangle)]
pub extern "C" fn apei_c_ghes_reset(ghes: &mut SourcesHandle, source: u32, blocks: u32) -> u32
    ensures { OnHeld ghes.old.owner.sources result ghes.new.owner.sources
        (StartsAgain source (unacknowledged_of blocks)) }
{
    let Some(sources) = ghes.sources() else {
        return Status::Closed.number();
    };
    source_calls::reset(sources, source, blocks).number()
}
