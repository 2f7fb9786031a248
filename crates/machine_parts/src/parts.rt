// The parts that sections name.
ghost use Rattle.std.specs.Prelude.{◌≡◌};
ghost use Rattle.smbios.specs.Finding.{pair_in};
ghost use Rattle.machine_parts.specs.Parts.{FindsHandle, FindsSlot, IsCard, IsModule, IsSlot};

use crate::arrays::{MemoryArray, memory_array};
use crate::numbers::{Naming, card_handle, module_handle, slot_number};
use smbios::{MemoryDevice, Structure, Wanted, find, memory_device};

/// The memory module that a section names.
#[derive(Clone, Copy)]
pub enum Module<'a> {
    /// The section has no valid module handle.
    Unnamed,
    /// No memory device of the table has this handle.
    Absent(u32),
    Found(MemoryDevice<'a>),
}

/// The memory array that a section names as the card of its module.
#[derive(Clone, Copy)]
pub enum Card {
    /// The section has no valid card handle.
    Unnamed,
    /// No memory array of the table has this handle.
    Absent(u32),
    Found(MemoryArray),
}

/// The slot that a section names.
#[derive(Clone, Copy)]
pub enum Slot<'a> {
    /// The section has no valid slot number.
    Unnamed,
    /// No system slot of the table has this number.
    Absent(u32),
    /// Its label on the board; none where the structure has none (type 9; DSP0134, 7.10).
    Found(Option<&'a [u8]>),
}

// The types of the structures (DSP0134, 7).
const MEMORY_ARRAY: u8 = 16;

const MEMORY_DEVICE: u8 = 17;

// Where the number of a slot's designation stands.
const DESIGNATION_AT: usize = 4;

/// The memory module that a section of this type names, among the structures of a table.
pub fn module_of<'a>(table: &'a [u8], naming: Naming, body: &[u8]) -> Module<'a>
    ensures { IsModule table.now naming body.now result }
{
    let Some(number) = module_handle(naming, body) else {
        return Module::Unnamed;
    };
    match find_handle(table, MEMORY_DEVICE, number) {
        Some(structure) => Module::Found(memory_device(&structure)),
        None => Module::Absent(number),
    }
}

/// The memory array that a section of this type names as a card.
pub fn card_of(table: &[u8], naming: Naming, body: &[u8]) -> Card
    ensures { IsCard table.now naming body.now result }
{
    let Some(number) = card_handle(naming, body) else {
        return Card::Unnamed;
    };
    match find_handle(table, MEMORY_ARRAY, number) {
        Some(structure) => Card::Found(memory_array(&structure)),
        None => Card::Absent(number),
    }
}

/// The slot that a section of this type names.
pub fn slot_of<'a>(table: &'a [u8], naming: Naming, body: &[u8]) -> Slot<'a>
    ensures { IsSlot table.now naming body.now result }
{
    let Some(number) = slot_number(naming, body) else {
        return Slot::Unnamed;
    };
    match find_slot(table, number) {
        Some(structure) => Slot::Found(structure.text_at(DESIGNATION_AT)),
        None => Slot::Absent(number),
    }
}

// A handle has 16 bits, so no structure has one of more.
fn find_handle(table: &[u8], kind: u8, number: u32) -> Option<Structure<'_>>
    ensures { FindsHandle kind number table.now (pair_in result) }
{
    if number >= 0x10000 {
        return None;
    }
    find(
        table,
        Wanted::Handle {
            kind,
            handle: number as u16,
        },
    )
}

fn find_slot(table: &[u8], number: u32) -> Option<Structure<'_>>
    ensures { FindsSlot number table.now (pair_in result) }
{
    if number >= 0x10000 {
        return None;
    }
    find(table, Wanted::Slot(number as u16))
}
