// Entries on 64-bit registers of memory, and tables of them.
use apei_tables::{Gas, Header};
use erst_entries::{Action, Entry, ErstTable, Instruction};
use std::alloc::Global;

// The most entries of a table.
const MOST: usize = 4096;

/// An entry on a 64-bit register of memory.
pub fn entry(action: Action, instruction: Instruction, address: u64, value: u64) -> Entry {
    Entry {
        action: action.code(),
        code: instruction.code(),
        flags: 0,
        spare: 0,
        region: Gas {
            space: 0,
            width: 64,
            offset: 0,
            access: 4,
            address,
        },
        value,
        mask: u64::MAX,
    }
}

/// A table without entries.
pub fn blank(alloc: Global) -> ErstTable {
    let header = Header {
        signature: *b"ERST",
        length: 48,
        revision: 1,
        checksum: 0,
        oem_id: [0; 6],
        oem_table_id: [0; 8],
        oem_revision: 1,
        creator_id: [0; 4],
        creator_revision: 1,
    };
    ErstTable::blank(alloc, header)
}

/// One entry more; `None` where a table is full or there is no memory.
pub fn add(table: &mut ErstTable, entry: Entry) -> Option<()> {
    if table.len() >= MOST {
        return None;
    }
    table.push(entry).ok()
}
