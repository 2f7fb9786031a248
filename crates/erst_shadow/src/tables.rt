// The table.
ghost use Rattle.std.specs.Prelude.{◌≡◌, ◌+◌, ◌*◌, ◌≤◌, ◌<◌, ◌^◌, ◌++◌, ◌∷◌, [], length, IfOk, OnOk};
ghost use Rattle.erst_entries.specs.Layout.{spelling, FitsErst};
ghost use Rattle.erst_entries.specs.Tables.{IsErst};
ghost use Rattle.erst_shadow.specs.ShadowTables.{pieces_of, shadow_count, shadow_erst};

use crate::entries::{entries_before, entries_behind, entries_between, move_entries};
use apei_bytes::OutOfMemory;
use erst_device::LOG_RANGE;
use erst_entries::{Action, Entry, ErstTable};
use erst_machine::entries::told_entries;
use erst_machine::{SCRATCH, own_header};
use std::alloc::Global;

/// Puts entries behind those of a table.
fn append(table: &mut ErstTable, entries: &[Entry]) -> Result<(), OutOfMemory>
    requires { length table.old.entries + length entries.now < 2 ^ 20 }
    ensures { OnOk result (table.new ≡ record table.old { entries = table.old.entries ++ entries.now }) }
{
    for entry in entries {
        table.push(*entry)?;
    }
    Ok(())
}

/// The table of a machine whose longest record has `reach` bytes, with which a record may have as many bytes as `reach` has whole
/// pieces of 128, and 3,968 at most. `Err` says that there is no memory for it.
pub fn shadow_table(alloc: Global, reach: u32) -> Result<ErstTable, OutOfMemory>
    requires { 128 ≤ reach }
    ensures table { IfOk result (λ table. table ≡ shadow_erst (pieces_of reach)) }
    ensures size { IfOk result (λ table. length (spelling table) ≡ 48 + 32 * shadow_count) }
    ensures erst { IfOk result (λ table. IsErst table (spelling table)) }
    ensures fits { OnOk result (FitsErst (shadow_erst (pieces_of reach))) }
{
    let size = 128 * u64::from((reach / 128).min(31));
    let mut table = ErstTable::blank(alloc, own_header(*b"ERST", 0));
    append(&mut table, &entries_before())?;
    append(
        &mut table,
        &move_entries(Action::ExecuteOperation, SCRATCH, LOG_RANGE, size),
    )?;
    append(&mut table, &entries_between())?;
    append(
        &mut table,
        &move_entries(Action::GetCommandStatus, LOG_RANGE, SCRATCH, size),
    )?;
    append(&mut table, &entries_behind(size))?;
    append(&mut table, &told_entries())?;
    table.finish();
    Ok(table)
}
