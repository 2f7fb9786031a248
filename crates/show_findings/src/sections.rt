// The sections of an error record.
ghost use Rattle.std.specs.Prelude.{◌≡◌, ◌+◌, ◌*◌, ◌^◌, ◌<◌, ◌≤◌, length, IfSome, MatchOption};
ghost use Rattle.show_findings.specs.Places.{HasSection, IsSection};

use crate::bytes::{seen_at, seen_u16};
use apei_bytes::{bytes_at, get_u32};

// The bytes of a record's header, and those of a descriptor (UEFI 2.8, N.2.1 and N.2.2).
const HEADER: usize = 128;

const DESCRIPTOR: usize = 72;

/// A section: its descriptor, and its body, as far as it is there.
#[derive(Clone, Copy)]
pub struct Section<'a> {
    /// Where its descriptor stands in the record.
    pub at: usize,
    pub descriptor: &'a [u8],
    /// Where the descriptor says that its body stands.
    pub body_at: usize,
    pub body: &'a [u8],
}

/// A section of a record, by its index from 0. There is none from the record's count on, and where its descriptor isn't all there.
pub fn section_at(bytes: &[u8], index: u16) -> Option<Section<'_>>
    ensures section { MatchOption result (¬ HasSection bytes.now index) (λ section. HasSection bytes.now index
        × IsSection bytes.now index section.at section.descriptor.now section.body_at section.body.now) }
    ensures places { IfSome result (λ section. (section.at < 2 ^ 32) × (section.body_at < 2 ^ 32)) }
{
    let at = HEADER + DESCRIPTOR * index as usize;
    if index >= seen_u16(bytes, 10) || bytes.len() < at + DESCRIPTOR {
        return None;
    }
    let body_at = get_u32(bytes, at) as usize;
    let body_len = get_u32(bytes, at + 4) as usize;
    Some(Section {
        at,
        descriptor: bytes_at(bytes, at, DESCRIPTOR),
        body_at,
        body: seen_at(bytes, body_at, body_len),
    })
}
