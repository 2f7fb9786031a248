// What a firmware's table says of its error log address range and of its timings.
ghost use Rattle.std.specs.Prelude.{◌≡◌, ◌/◌, ◌%◌, ◌^◌};
ghost use Rattle.erst_interp.specs.Moments.{Between, moment};
ghost use Rattle.erst_client.specs.Attaching.{Attaches, AsksTimings, client_result, found_result};

use crate::errors::AttachError;
use crate::requests::{ask, program_for};
use apei_space::Space;
use cper_frame::HEADER;
use erst_entries::{Action, ErstTable};
use erst_interp::{Budget, RunStop};

/// The bit of the range's attributes that says that it is non-volatile memory.
const NON_VOLATILE: u64 = 2;

/// The error log address range, and how long an operation takes at most and nominally.
#[derive(Clone, Copy)]
pub struct FoundRange {
    pub address: u64,
    pub len: u64,
    pub timings: Option<(u32, u32)>,
}

/// Asks for the range, its length, its attributes and the timings, and judges the answers then.
pub fn find<S: Space>(
    table: &ErstTable,
    budget: &mut Budget,
    space: &mut S,
) -> Result<FoundRange, AttachError>
    ensures { Between (Attaches S.allows table.now) (moment budget.old (S.state space.old))
        (client_result table.now result) (moment budget.new (S.state space.new)) }
{
    let address = match ask(table, Action::GetErrorLogAddressRange, budget, space) {
        Ok(address) => address,
        Err(stop) => return Err(AttachError::Stopped(stop)),
    };
    let len = match ask(table, Action::GetErrorLogAddressRangeLength, budget, space) {
        Ok(len) => len,
        Err(stop) => return Err(AttachError::Stopped(stop)),
    };
    let attributes = match ask(
        table,
        Action::GetErrorLogAddressRangeAttributes,
        budget,
        space,
    ) {
        Ok(attributes) => attributes,
        Err(stop) => return Err(AttachError::Stopped(stop)),
    };
    match ask_timings(table, budget, space) {
        Ok(timings) => admit(address, len, attributes, timings),
        Err(stop) => Err(AttachError::Stopped(stop)),
    }
}

/// Asks for the timings where the table has entries for them.
#[tactic(auto, using(crate::proofs::Rules::timings))]
fn ask_timings<S: Space>(
    table: &ErstTable,
    budget: &mut Budget,
    space: &mut S,
) -> Result<Option<(u32, u32)>, RunStop>
    ensures { Between (AsksTimings S.allows table.now.entries) (moment budget.old (S.state space.old)) result
        (moment budget.new (S.state space.new)) }
{
    if program_for(table, Action::GetExecuteOperationTimings).is_empty() {
        return Ok(None);
    }
    match ask(table, Action::GetExecuteOperationTimings, budget, space) {
        Ok(answer) => Ok(Some(((answer >> 32) as u32, (answer % (1 << 32)) as u32))),
        Err(stop) => Err(stop),
    }
}

/// The range, if a client can use it.
pub fn admit(
    address: u64,
    len: u64,
    attributes: u64,
    timings: Option<(u32, u32)>,
) -> Result<FoundRange, AttachError>
    ensures { result ≡ found_result address len attributes timings }
{
    if attributes & NON_VOLATILE != 0 {
        return Err(AttachError::NonVolatile { found: attributes });
    }
    if len < HEADER as u64 {
        return Err(AttachError::NoRange { len });
    }
    Ok(FoundRange {
        address,
        len,
        timings,
    })
}
