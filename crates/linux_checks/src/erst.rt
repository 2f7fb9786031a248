// Instruction entries of an Error Record Serialization Table.
ghost use Rattle.std.specs.Prelude.{◌≡◌, ◌≤◌, length};
ghost use Rattle.linux_checks.specs.Erst.{has_no_register, instruction_refusal};

use crate::reasons::{Reason, Refusal};
use crate::registers::register_refusal;
use apei_bytes::byte_at;

// Where the instruction stands in an entry, and its register; and the last instruction that the standard has.
const INSTRUCTION: u8 = 1;

const REGISTER: u8 = 4;

const LAST: u8 = 18;

/// Why Linux refuses an instruction entry (ACPI 6.4, section 18.5.1.2), if it does.
pub fn instruction_refusal(entry: &[u8]) -> Option<Refusal>
    requires { 32 ≤ length entry.now }
    ensures { result ≡ instruction_refusal entry.now }
{
    let instruction = byte_at(entry, INSTRUCTION as usize);
    if instruction > LAST {
        Some(Refusal {
            at: INSTRUCTION,
            reason: Reason::Instruction,
        })
    } else if has_no_register(instruction) {
        None
    } else {
        register_refusal(entry, REGISTER)
    }
}

fn has_no_register(instruction: u8) -> bool
    ensures { result ≡ has_no_register instruction }
{
    instruction == 4
        || instruction == 8
        || instruction == 9
        || instruction == 12
        || instruction == 15
}
