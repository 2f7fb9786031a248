// What a machine takes at its boot.
ghost use Rattle.std.specs.Prelude.{◌≡◌, ◌≤◌, IfOk};
ghost use Rattle.ghes_ack.specs.Machine.{started};
ghost use Rattle.ghes_ack.specs.Maps.{window, memory_started};
ghost use Rattle.ghes_ack.specs.Handovers.{StandsFor, fresh};
ghost use Rattle.erst_machine.specs.Memories.{memory_of, HasSizes, cleared, blank};
ghost use Rattle.erst_machine.specs.MachineState.{own_map};

use crate::areas::{ACKNOWLEDGE, BLOCK, BLOCK_LEN, STATUS};
use crate::contents::Contents;
use apei_bytes::OutOfMemory;
use apei_tables::{Place, Register, Width};
use ghes_ack::{Handover, HandoverMap};
use std::alloc::Global;

/// Where the two sides of the handover meet.
const OWN_MAP: HandoverMap = HandoverMap {
    status: STATUS,
    ack: Register {
        place: Place::Memory(ACKNOWLEDGE),
        access: Width::B64,
        offset: 0,
    },
    preserve: u64::MAX - 1,
    write: 1,
    block: BLOCK,
    len: BLOCK_LEN,
};

/// All memory of a machine but its store's, with a handover at its start.
pub fn begin(alloc: Global, reach: usize) -> Result<(Contents, Handover), OutOfMemory>
    requires { reach ≤ 65536 }
    ensures memory { IfOk result (λ x. memory_of x.0 ≡ cleared reach (memory_started own_map blank)) }
    ensures sizes { IfOk result (λ x. HasSizes reach (memory_of x.0)) }
    ensures handover { IfOk result (λ x. x.1 ≡ fresh own_map) }
    ensures stands { IfOk result (λ x. StandsFor x.1 x.0.shared (started (window own_map blank))) }
{
    let mut contents = Contents::new(alloc, reach)?;
    let handover = Handover::new(alloc, OWN_MAP, &mut contents.shared)?;
    Ok((contents, handover))
}
