// The record that a write finds in the log range.
ghost use Rattle.std.specs.Prelude.{◌≡◌, ◌+◌, ◌<◌, ◌≤◌, nat_lt, if◌then◌else◌, length, Some, None, MatchOption, IfSome};
ghost use Rattle.record_model.specs.Records.{is_reserved};
ghost use Rattle.erst_device.specs.Drafts.{draft_at};

use apei_bytes::{get_u32, get_u64};
use cper_frame::{HEADER, ID_AT, LENGTH_AT};

/// The length and the identifier in the header of the record at an offset, where the record is long enough and within the range.
#[tactic(auto, using(std::proofs::lemmas::Bool::Decides::nat_tests))]
pub fn header_at(range: &[u8], offset: u64) -> Option<(u32, u64)>
    ensures draft { MatchOption result (draft_at offset range.now ≡ None)
        (λ header. draft_at offset range.now ≡ (if is_reserved header.1 then None else Some header)) }
    ensures least { IfSome result (λ header. 128 ≤ header.0) }
    ensures within { IfSome result (λ header. offset + header.0 ≤ length range.now) }
{
    if is_beyond(offset, HEADER as u32, range.len() as u64) {
        return None;
    }
    let at = offset as usize;
    let size = get_u32(range, at + LENGTH_AT);
    if size < HEADER as u32 || is_beyond(offset, size, range.len() as u64) {
        return None;
    }
    Some((size, get_u64(range, at + ID_AT)))
}

/// Whether so many bytes at an offset go beyond the end of a range.
#[tactic(auto, using(std::proofs::lemmas::Bool::Decides::nat_tests))]
pub fn is_beyond(offset: u64, size: u32, end: u64) -> bool
    ensures { result ≡ nat_lt end (offset + size) }
{
    offset > end || u64::from(size) > end - offset
}
