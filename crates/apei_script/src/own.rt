// The client of the machine's own table.
ghost use Rattle.std.specs.Prelude.{◌≡◌, IfOk, OnOk, OnErr};
ghost use Rattle.erst_device.specs.Timings.{timings_of};
ghost use Rattle.erst_commands.specs.OwnPrograms.{with_value};
ghost use Rattle.erst_commands.specs.Attached.{own_client};

use crate::tables::ATTACH_STEPS;
use apei_bytes::OutOfMemory;
use erst_client::Client;
use erst_entries::ErstTable;
use erst_interp::Budget;
use erst_machine::Machine;
use flash_model::Flash;
use std::alloc::Global;

/// Attaches a client to the table that the machine gives. It makes no call on the flash, and is refused for want of memory alone.
pub fn own_client<F: Flash>(alloc: Global, machine: &mut Machine<F>) -> Result<Client, OutOfMemory>
    ensures client { IfOk result (λ client. client ≡ own_client machine.old) }
    ensures machine { OnOk result (machine.new ≡ with_value (timings_of machine.old.device.store.layout) machine.old) }
    ensures kept { OnErr result (machine.new ≡ machine.old) }
{
    let bytes = machine.erst_table(alloc)?;
    let Ok((table, _)) = ErstTable::decode(alloc, &bytes) else {
        return Err(OutOfMemory);
    };
    let mut budget = Budget::new(ATTACH_STEPS);
    match Client::attach(table, &mut budget, machine) {
        Ok(client) => Ok(client),
        Err(_) => unreachable!(),
    }
}
