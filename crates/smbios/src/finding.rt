// One structure of a table.
ghost use Rattle.std.specs.Prelude.{◌≡◌};
ghost use Rattle.smbios.specs.Structures.{pair};
ghost use Rattle.smbios.specs.Finding.{FindsFirst, is_wanted, pair_in};

use crate::structures::{Structure, first_structure};

/// Which structure is looked for.
#[derive(Clone, Copy, Debug, PartialEq, Eq)]
pub enum Wanted {
    /// The one of this type with this handle (DSP0134, 6.1.2).
    Handle { kind: u8, handle: u16 },
    /// The system slot of this number (type 9; DSP0134, 7.10).
    Slot(u16),
}

// The type of the structure that ends a table (DSP0134, 7.45).
const END_OF_TABLE: u8 = 127;

const SYSTEM_SLOT: u8 = 9;

// Where a handle stands in a formatted area, and the number of a slot.
const HANDLE_AT: usize = 2;

const SLOT_NUMBER_AT: usize = 9;

/// The first structure of a table that is wanted. A structure after the one that ends the table is none.
pub fn find(table: &[u8], wanted: Wanted) -> Option<Structure<'_>>
    ensures { FindsFirst (is_wanted wanted) table.now (pair_in result) }
{
    let mut rest = table;
    while let Some(found) = first_structure(rest) {
        if is_wanted(&found.structure, wanted) {
            return Some(found.structure);
        }
        if found.structure.kind() == END_OF_TABLE {
            return None;
        }
        rest = found.rest;
    }
    None
}

fn is_wanted(structure: &Structure<'_>, wanted: Wanted) -> bool
    ensures { result ≡ is_wanted wanted (pair structure.now.formatted.now structure.now.strings.now) }
{
    match wanted {
        Wanted::Handle { kind, handle } => {
            structure.kind() == kind && structure.has_number(HANDLE_AT, handle)
        }
        Wanted::Slot(number) => {
            structure.kind() == SYSTEM_SLOT && structure.has_number(SLOT_NUMBER_AT, number)
        }
    }
}
