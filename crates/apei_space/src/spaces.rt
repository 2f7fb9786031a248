// A space: what a register program may read, write and copy.
ghost use Rattle.std.specs.Prelude.{◌≡◌, ◌^◌, ◌<◌, ℕ, IfOk};
ghost use Rattle.apei_tables.specs.Access.{bits};
ghost use Rattle.apei_space.specs.Calls.{Call, Read, Write, Wait, Copy, ReadBytes, WriteBytes, HasReason};

use crate::faults::SpaceFault;
use apei_tables::{Place, Width};

/// Memory and I/O, with whatever devices answer there. Each call is related to the states before and after it by
/// `allows`. The bytes of an access are counted upwards from its address.
pub trait Space {
    /// What the space is, as far as its calls show it.
    ghost State: { Type 0 };

    ghost state: { Self → State };

    /// Before, the call with its answer, after.
    ghost allows: { State → Call → State → Type 0 };

    /// How often what stands behind the space has failed.
    ghost faults: { State → ℕ };

    fn read(&mut self, at: Place, width: Width) -> Result<u64, SpaceFault>
        ensures allowed { allows (state self.old) (Read at width result) (state self.new) }
        ensures small { IfOk result (λ value. value < 2 ^ bits width) };

    /// Writes the low bits of `value`.
    fn write(&mut self, at: Place, width: Width, value: u64) -> Result<(), SpaceFault>
        ensures { allows (state self.old) (Write at width value result) (state self.new) };

    /// Passes so many microseconds.
    fn wait(&mut self, micros: u64)
        ensures { allows (state self.old) (Wait micros) (state self.new) };

    /// Copies memory as if the source were read whole first. The source's bytes are checked first, upwards, and then
    /// the target's.
    fn copy(&mut self, from: u64, to: u64, len: u32) -> Result<(), SpaceFault>
        ensures { allows (state self.old) (Copy from to len result) (state self.new) };

    fn read_bytes(&mut self, at: u64, out: &mut [u8]) -> Result<(), SpaceFault>
        ensures { allows (state self.old) (ReadBytes at out.old out.new result) (state self.new) };

    fn write_bytes(&mut self, at: u64, bytes: &[u8]) -> Result<(), SpaceFault>
        ensures { allows (state self.old) (WriteBytes at bytes.now result) (state self.new) };

    /// The count of faults never falls. A fault of an address, of a window's rules or of memory leaves everything as it
    /// was, and a device's comes only where the count rose.
    ghost reasons: { (old new : State) (call : Call) → allows old call new → HasReason faults old call new };
}
