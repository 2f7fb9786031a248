// The calls on error sources, each with its status.
ghost use Rattle.std.specs.Prelude.{◌≡◌};
ghost use Rattle.apei_c.specs.SourceCalls.{Submits, GoesOn, StartsAgain, TellsAccess, TellsHest, unacknowledged_of};

use crate::buffers::fill;
use crate::guest_accesses::tell;
use crate::source_structs::GuestAccess;
use crate::status::Status;
use ghes_port::{Sources, Unacknowledged};

pub fn submit(sources: &mut Sources, source: u32, block: &[u8]) -> Status
    ensures { Submits source block.now sources.old result sources.new }
{
    let index = source as usize;
    if index >= sources.count() {
        return Status::Source;
    }
    match sources.submit(index, block) {
        Ok(_) => Status::Done,
        Err(error) => Status::of_submitting(error),
    }
}

pub fn access(sources: &Sources, source: u32, access: &mut GuestAccess, bytes: &mut [u8]) -> Status
    ensures { TellsAccess source sources.now access.old bytes.old result access.new bytes.new }
{
    let index = source as usize;
    if index >= sources.count() {
        return Status::Source;
    }
    if bytes.len() < 64 {
        return Status::Short;
    }
    let found = sources.access(index, bytes);
    tell(found, access)
}

pub fn done(sources: &mut Sources, source: u32, value: u64) -> Status
    ensures { GoesOn source value sources.old result sources.new }
{
    let index = source as usize;
    if index >= sources.count() {
        return Status::Source;
    }
    Status::of_outcome(sources.done(index, value))
}

fn unacknowledged_of(number: u32) -> Option<Unacknowledged>
    ensures { result ≡ unacknowledged_of number }
{
    match number {
        0 => Some(Unacknowledged::TellAgain),
        1 => Some(Unacknowledged::Forget),
        _ => None,
    }
}

pub fn reset(sources: &mut Sources, source: u32, blocks: u32) -> Status
    ensures { StartsAgain source (unacknowledged_of blocks) sources.old result sources.new }
{
    let Some(blocks) = unacknowledged_of(blocks) else {
        return Status::Choice;
    };
    let index = source as usize;
    if index >= sources.count() {
        return Status::Source;
    }
    sources.reset(index, blocks);
    Status::Done
}

pub fn table(sources: &Sources, table: &mut [u8], size: &mut u64) -> Status
    ensures { TellsHest sources.now table.old result table.new size.new }
{
    let found = sources.table();
    *size = found.len() as u64;
    if fill(table, found) {
        Status::Done
    } else {
        Status::Short
    }
}
