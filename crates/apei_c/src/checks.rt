// Checks of items, and their parts.
ghost use Rattle.std.specs.Prelude.{◌≡◌};
ghost use Rattle.apei_c.specs.declared.status.Status.{Status as AnyStatus};
ghost use Rattle.apei_c.specs.Statuses.{number_of};
ghost use Rattle.apei_c.specs.Numbers.{item_of};
ghost use Rattle.apei_c.specs.Checks.{told_check, ChecksItem, TellsPart, FindsItem, FindsPart, item_fault, item_part, no_item};

use crate::numbers::item_of;
use crate::status::Status;
use crate::structs::{ItemFault, ItemPart};
use item_parts::{Fault, Part, check, part_at};
use std::alloc::Global;

fn item_fault(fault: Fault) -> ItemFault
    ensures { result ≡ item_fault fault }
{
    ItemFault {
        offset: fault.at,
        kind: fault.kind.number(),
        reserved: 0,
    }
}

fn no_item() -> ItemFault
    ensures { result ≡ no_item }
{
    ItemFault {
        offset: 0,
        kind: 0,
        reserved: 0,
    }
}

fn item_part(part: Part) -> ItemPart
    ensures { result ≡ item_part part }
{
    ItemPart {
        offset: part.at,
        length: part.len,
        body: part.body,
        body_length: part.body_len,
        kind: part.kind,
        reserved: 0,
    }
}

fn check_item(
    alloc: Global,
    item: u32,
    bytes: &[u8],
    parts: &mut u32,
    fault: &mut ItemFault,
) -> Status
    ensures checked { ChecksItem (item_of item) bytes.now (told_check parts.old fault.old) result
        (told_check parts.new fault.new) }
    ensures found { FindsItem (item_of item) bytes.now result parts.new }
{
    let Some(item) = item_of(item) else {
        *parts = 0;
        *fault = no_item();
        return Status::Bad;
    };
    match check(alloc, item, bytes) {
        Ok(count) => {
            *parts = count;
            Status::Done
        }
        Err(error) => {
            let Some(found) = error.fault(bytes.len() as u64) else {
                return Status::Memory;
            };
            *parts = 0;
            *fault = item_fault(found);
            Status::Bad
        }
    }
}

fn tell_part(alloc: Global, item: u32, bytes: &[u8], index: u32, part: &mut ItemPart) -> Status
    ensures told { TellsPart (item_of item) bytes.now index part.old result part.new }
    ensures found { FindsPart (item_of item) bytes.now index result part.new }
{
    let Some(item) = item_of(item) else {
        return Status::Bad;
    };
    match part_at(alloc, item, bytes, index) {
        Ok(Some(found)) => {
            *part = item_part(found);
            Status::Done
        }
        Ok(None) => Status::Nothing,
        Err(error) => match error.fault(bytes.len() as u64) {
            Some(_) => Status::Bad,
            None => Status::Memory,
        },
    }
}

/// Whether the bytes begin with an item.
#[unsafe(no_mangle)]
pub extern "C" fn apei_c_check(
    alloc: Global,
    item: u32,
    bytes: &[u8],
    parts: &mut u32,
    fault: &mut ItemFault,
) -> u32
    ensures { (status : AnyStatus) × (result ≡ number_of status)
        × ChecksItem (item_of item) bytes.now (told_check parts.old fault.old) status (told_check parts.new fault.new)
        × FindsItem (item_of item) bytes.now status parts.new }
{
    check_item(alloc, item, bytes, parts, fault).number()
}

/// A part of the item that the bytes begin with.
#[unsafe(no_mangle)]
pub extern "C" fn apei_c_part_at(
    alloc: Global,
    item: u32,
    bytes: &[u8],
    index: u32,
    part: &mut ItemPart,
) -> u32
    ensures { (status : AnyStatus) × (result ≡ number_of status)
        × TellsPart (item_of item) bytes.now index part.old status part.new
        × FindsPart (item_of item) bytes.now index status part.new }
{
    tell_part(alloc, item, bytes, index, part).number()
}
