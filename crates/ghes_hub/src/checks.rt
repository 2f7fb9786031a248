// Whether an error source may be served.
ghost use Rattle.std.specs.Prelude.{◌≡◌, ◌*◌, ◌^◌, ◌<◌, ◌&&◌, nat_lt, Some, None, MatchResult};
ghost use Rattle.apei_tables.specs.Access.{bits};
ghost use Rattle.apei_tables.specs.Check.{checked};
ghost use Rattle.ghes_hub.specs.Refusals.{is_status, has_ack, source_refusal};

use crate::errors::HubError;
use apei_tables::{Gas, Place, Width};
use hest_sources::{Ack, Ghes};

/// Whether a source may be served: a block of 20 to 4,096 bytes, and registers as they must be.
pub fn check(index: usize, source: &Ghes) -> Result<(), HubError>
    ensures { MatchResult result (λ _. source_refusal index source.now ≡ None)
        (λ error. source_refusal index source.now ≡ Some error) }
{
    if source.block_len < 20 || source.block_len > 4096 {
        return Err(HubError::BlockLen {
            index: index as u64,
            len: u64::from(source.block_len),
        });
    }
    if !is_status(&source.status) {
        return Err(HubError::Status {
            index: index as u64,
        });
    }
    if let Some(ack) = &source.ack {
        if !is_ack(ack) {
            return Err(HubError::Ack {
                index: index as u64,
            });
        }
    }
    Ok(())
}

/// Whether a register is one of a block's address.
fn is_status(status: &Gas) -> bool
    ensures { result ≡ is_status (checked status.now) }
{
    match status.check() {
        Ok(register) => {
            match register.place {
                Place::Memory(_) => register.offset == 0 && register.access.bytes() == 8,
                Place::Io(_) => false,
            }
        }
        Err(_) => false,
    }
}

/// Whether there is an acknowledge bit, and all of them lie in the register's access.
fn is_ack(ack: &Ack) -> bool
    ensures { result ≡ has_ack (Some ack.now) }
{
    match ack.register.check() {
        Ok(register) => lie_within(ack.write, register.offset, register.access),
        Err(_) => false,
    }
}

/// Whether a mask that is moved up has bits, and all of them lie in an access.
fn lie_within(mask: u64, offset: u8, access: Width) -> bool
    requires { offset < 64 }
    ensures { result ≡ (nat_lt 0 mask && nat_lt (mask * 2 ^ offset) (2 ^ bits access)) }
{
    mask > 0 && u128::from(mask) << u32::from(offset) < 1_u128 << (8 * access.bytes())
}
