// How long an execution takes.
ghost use Rattle.std.specs.Prelude.{◌≡◌, ◌+◌, ◌<◌, ◌≤◌};
ghost use Rattle.flash_model.specs.Layouts.{layout_of};
ghost use Rattle.erst_device.specs.Timings.{most_changes, timings_of};

use flash_model::Geometry;

// The time of a flash change in microseconds.
const CHANGE_TIME: u64 = 10;

// The bytes of a record that one change writes.
const PIECE: u64 = 256;

/// The greatest time of an execution in the upper 32 bits and the nominal one in the lower, in microseconds.
pub fn execution_timings(geometry: &Geometry) -> u64
    ensures { result ≡ timings_of (layout_of geometry.now) }
{
    let nominal = CHANGE_TIME * (geometry.per_slot() + 4);
    let greatest = CHANGE_TIME * most_changes(geometry);
    (1 << 32) * greatest + nominal
}

// The changes of the write of the longest record over another: those that fill the slot of each part, the one that opens the gate, and
// the one that ends the older record.
fn most_changes(geometry: &Geometry) -> u64
    ensures value { result ≡ most_changes (layout_of geometry.now) }
    ensures few { result < 2000 }
{
    let reach = geometry.reach();
    let room = geometry.room();
    let parts = (reach + (room - 1)) / room;
    let mut changes = 0;
    for part in 0..parts {
        let len = room.min(reach.saturating_sub(part * room));
        changes += geometry.per_slot() + 2 + (len + (PIECE - 1)) / PIECE;
    }
    changes + 2
}
