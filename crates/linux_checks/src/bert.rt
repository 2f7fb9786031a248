// The region of a Boot Error Record Table.
ghost use Rattle.std.specs.Prelude.{◌≡◌};
ghost use Rattle.linux_checks.specs.Bert.{region_refusal};

use crate::reasons::{Reason, Refusal};
use crate::registers::is_too_high;
use apei_bytes::{get_u32, get_u64};

// The bytes of the table, where the region's length and its address stand in it, and the bytes of a status block's head.
const TABLE: usize = 48;

const LENGTH: u8 = 36;

const ADDRESS: u8 = 40;

const HEAD: u32 = 20;

/// Why Linux refuses the region of a BERT, if it does.
pub fn region_refusal(table: &[u8]) -> Option<Refusal>
    ensures { result ≡ region_refusal table.now }
{
    if table.len() < TABLE {
        return None;
    }
    if get_u32(table, LENGTH as usize) < HEAD {
        return Some(Refusal {
            at: LENGTH,
            reason: Reason::ShortRegion,
        });
    }
    if is_too_high(get_u64(table, ADDRESS as usize)) {
        return Some(Refusal {
            at: ADDRESS,
            reason: Reason::TooHigh,
        });
    }
    None
}
