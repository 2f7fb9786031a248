// The commands of a client, over the parts that it is made of.
ghost use Rattle.std.specs.Prelude.{◌≡◌, ◌+◌, ◌≤◌, ◌<◌, ◌^◌, ◌++◌, length, take, drop, codes};
ghost use Rattle.erst_interp.specs.Moments.{Between, moment};
ghost use Rattle.erst_client.specs.Commands.{Writes, Puts, ReadsInto, Counts, Names, Fills, write_refusal, copy_refusal};
ghost use Rattle.erst_client.specs.Attaching.{client_with};
ghost use Rattle.erst_client.specs.Sequences.{Sequence, clear_requests, dummy_requests};

use crate::asking::{counted, named};
use crate::attaching::FoundRange;
use crate::errors::ClientError;
use crate::requests::ask;
use crate::sequences::sequence;
use crate::stages::Command;
use apei_bytes::get_u32;
use apei_space::Space;
use cper_frame::{HEADER, LENGTH_AT, Record};
use erst_entries::{Action, ErstTable};
use erst_interp::Budget;

/// Where a record is marked as one in persistent storage (UEFI 2.8, N.2.1).
pub const MARK_AT: u64 = 108;

/// Puts a record into the range, marked, and has the firmware write it.
#[tactic(auto, using(crate::proofs::Rules::commands))]
pub fn write_record<S: Space>(
    table: &ErstTable,
    found: FoundRange,
    bytes: &[u8],
    budget: &mut Budget,
    space: &mut S,
) -> Result<(), ClientError>
    ensures { Between (Writes S.allows (client_with table.now found) bytes.now) (moment budget.old (S.state space.old))
        result (moment budget.new (S.state space.new)) }
{
    if let Some(error) = refusal(bytes, found.len) {
        return Err(error);
    }
    put(found, bytes, space)?;
    sequence(table, found.timings, Command::Write, budget, space)
}

/// Why bytes are not written.
pub fn refusal(bytes: &[u8], range: u64) -> Option<ClientError>
    ensures { result ≡ write_refusal bytes.now range }
{
    let len = match Record::decode(bytes) {
        Ok((_, len)) => len,
        Err(error) => return Some(ClientError::Frame(error)),
    };
    if len < bytes.len() {
        let bytes = (bytes.len() - len) as u64;
        return Some(ClientError::Trailing { bytes });
    }
    let len = bytes.len() as u64;
    if range < len {
        return Some(ClientError::TooLong { len, range });
    }
    None
}

/// Puts a record's bytes at the start of the range, and its mark over theirs.
#[tactic(auto, using(crate::proofs::Rules::commands))]
fn put<S: Space>(found: FoundRange, bytes: &[u8], space: &mut S) -> Result<(), ClientError>
    ensures { Puts S.allows found.address bytes.now (S.state space.old) result (S.state space.new) }
{
    match space.write_bytes(found.address, bytes) {
        Ok(()) => {}
        Err(fault) => return Err(ClientError::Range(fault)),
    }
    match space.write_bytes(found.address.wrapping_add(MARK_AT), b"ER") {
        Ok(()) => Ok(()),
        Err(fault) => Err(ClientError::Range(fault)),
    }
}

/// Has the firmware read a record, and copies it out of the range.
#[tactic(auto, using(crate::proofs::Rules::commands))]
pub fn read_record<S: Space>(
    table: &ErstTable,
    found: FoundRange,
    id: u64,
    out: &mut [u8],
    budget: &mut Budget,
    space: &mut S,
) -> Result<usize, ClientError>
    ensures { Between (ReadsInto S.allows (client_with table.now found) id out.old)
        (moment budget.old (S.state space.old)) (result, out.new) (moment budget.new (S.state space.new)) }
{
    sequence(table, found.timings, Command::Read(id), budget, space)?;
    let mut field = [0; 4];
    match space.read_bytes(found.address.wrapping_add(LENGTH_AT as u64), &mut field) {
        Ok(()) => {}
        Err(fault) => return Err(ClientError::Range(fault)),
    }
    let len = get_u32(&field, 0);
    if let Some(error) = copy_refusal(u64::from(len), found.len, out.len() as u64) {
        return Err(error);
    }
    match copy_out(found.address, &mut out[..len as usize], space) {
        Ok(()) => Ok(len as usize),
        Err(error) => Err(error),
    }
}

/// Why a record of this length is not copied out of the range into so much room.
pub fn copy_refusal(len: u64, range: u64, room: u64) -> Option<ClientError>
    ensures { result ≡ copy_refusal len range room }
{
    if len < HEADER as u64 || range < len {
        return Some(ClientError::BadLength { found: len });
    }
    if room < len {
        return Some(ClientError::SmallBuffer { need: len });
    }
    None
}

/// Has the firmware clear a record.
pub fn clear_record<S: Space>(
    table: &ErstTable,
    found: FoundRange,
    id: u64,
    budget: &mut Budget,
    space: &mut S,
) -> Result<(), ClientError>
    ensures { Between (Sequence S.allows table.now.entries found.timings (clear_requests id))
        (moment budget.old (S.state space.old)) result (moment budget.new (S.state space.new)) }
{
    sequence(table, found.timings, Command::Clear(id), budget, space)
}

/// Has the firmware go through a write that stores nothing.
pub fn write_dummy<S: Space>(
    table: &ErstTable,
    found: FoundRange,
    budget: &mut Budget,
    space: &mut S,
) -> Result<(), ClientError>
    ensures { Between (Sequence S.allows table.now.entries found.timings dummy_requests)
        (moment budget.old (S.state space.old)) result (moment budget.new (S.state space.new)) }
{
    sequence(table, found.timings, Command::Dummy, budget, space)
}

/// Asks how many records are stored.
pub fn count_records<S: Space>(
    table: &ErstTable,
    budget: &mut Budget,
    space: &mut S,
) -> Result<u64, ClientError>
    ensures { Between (Counts S.allows table.now.entries) (moment budget.old (S.state space.old)) result
        (moment budget.new (S.state space.new)) }
{
    counted(ask(table, Action::GetRecordCount, budget, space))
}

/// Asks for an identifier.
pub fn next_identifier<S: Space>(
    table: &ErstTable,
    budget: &mut Budget,
    space: &mut S,
) -> Result<Option<u64>, ClientError>
    ensures { Between (Names S.allows table.now.entries) (moment budget.old (S.state space.old)) result
        (moment budget.new (S.state space.new)) }
{
    named(ask(table, Action::GetRecordIdentifier, budget, space))
}

/// Fills the buffer from the start of the range.
#[tactic(auto, using(crate::proofs::Rules::commands))]
fn copy_out<S: Space>(address: u64, out: &mut [u8], space: &mut S) -> Result<(), ClientError>
    ensures { Fills S.allows address out.old (S.state space.old) (result, out.new) (S.state space.new) }
{
    match space.read_bytes(address, out) {
        Ok(()) => Ok(()),
        Err(fault) => Err(ClientError::Range(fault)),
    }
}
