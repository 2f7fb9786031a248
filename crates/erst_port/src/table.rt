// The table of a port.
ghost use Rattle.std.specs.Prelude.{◌≡◌, ◌+◌, ◌<◌, ◌^◌, length, IfOk};
ghost use Rattle.erst_entries.specs.Layout.{spelling};
ghost use Rattle.erst_entries.specs.Tables.{IsErst};
ghost use Rattle.erst_port.specs.PortTables.{port_erst, port_size};

use crate::entries::port_entries;
use crate::memory::blank;
use apei_bytes::{write_array, write_u32};
use apei_tables::seal;
use erst_machine::own_header;
use std::alloc::{AllocError, Global};

/// The bytes of the table.
const TABLE_SIZE: usize = 880;

// What stands before the entries, behind the header that all tables share: the size of the serialization header and the number of entries.
const HEADER_SIZE: u32 = 48;

const ENTRIES: u32 = 26;

/// Writes the Error Record Serialization Table (ACPI 6.4, section 18.5.1) whose registers stand at an address.
pub fn put_table(out: &mut [u8], registers: u64)
    requires size { length out.old ≡ port_size }
    requires below { registers + 8 < 2 ^ 64 }
    ensures { out.new ≡ spelling (port_erst registers) }
{
    own_header(*b"ERST", TABLE_SIZE as u32).put(out);
    let reserved = write_u32(out, 36, HEADER_SIZE);
    let count = write_u32(out, reserved, 0);
    let mut end = write_u32(out, count, ENTRIES);
    for entry in port_entries(registers) {
        end = write_array(out, end, &entry.spell());
    }
    seal(out);
}

/// The table whose registers stand at an address.
pub fn table_at(alloc: Global, registers: u64) -> Result<Vec<u8>, AllocError>
    requires { registers + 8 < 2 ^ 64 }
    ensures bytes { IfOk result (λ table. table.items ≡ spelling (port_erst registers)) }
    ensures size { IfOk result (λ table. length table.items ≡ port_size) }
    ensures erst { IfOk result (λ table. IsErst (port_erst registers) table.items) }
{
    let mut table = blank(alloc, TABLE_SIZE)?;
    put_table(&mut table, registers);
    Ok(table)
}
