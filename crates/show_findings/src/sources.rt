// The error source structures of a Hardware Error Source Table.
ghost use Rattle.std.specs.Prelude.{◌≡◌, ◌+◌, ◌*◌, ◌≤◌, ◌<◌, length, IfSome, MatchOption};
ghost use Rattle.base_model.specs.Bytes.{number_at};
ghost use Rattle.hest_sources.specs.Layout.{length_by_type};
ghost use Rattle.show_findings.specs.Places.{IsLength, IsNoSource, IsSource, NoLength};

use crate::bytes::{behind, first};
use apei_bytes::{byte_at, get_u16};

/// An error source structure, as far as it is there.
#[derive(Clone, Copy)]
pub struct Source<'a> {
    pub kind: u16,
    pub bytes: &'a [u8],
    /// Where the next one begins.
    pub next: usize,
}

/// The structure that begins at a place of a table. There is none where no type is left, and where its length isn't known.
pub fn source_at(table: &[u8], at: usize) -> Option<Source<'_>>
    ensures source { MatchOption result (IsNoSource table.now at)
        (λ source. IsSource table.now at source.kind source.bytes.now source.next) }
    // The next one stands further on.
    ensures places { IfSome result (λ source. (at < source.next) × (source.next < length table.now + 8000)) }
{
    if at > table.len() || table.len() - at < 2 {
        return None;
    }
    let rest = behind(table, at);
    let kind = get_u16(rest, 0);
    let length = length_by_type(kind, rest)?;
    Some(Source {
        kind,
        bytes: first(rest, length),
        next: at + length,
    })
}

// The length of a structure by its type (ACPI 6.4, section 18.3.2).
fn length_by_type(kind: u16, bytes: &[u8]) -> Option<usize>
    ensures value { MatchOption result (NoLength kind bytes.now) (λ size. IsLength kind bytes.now size) }
    ensures low { IfSome result (λ size. (0 < size) × (size < 8000)) }
{
    match kind {
        0 => length_with_banks(bytes, 40, 32),
        1 | 11 => length_with_banks(bytes, 48, 44),
        2 => Some(20),
        6 => Some(48),
        7 => Some(44),
        8 => Some(56),
        9 => Some(64),
        10 => Some(92),
        _ => None,
    }
}

// The length of a structure with machine check banks, whose number stands at a place.
fn length_with_banks(bytes: &[u8], fixed: usize, place: usize) -> Option<usize>
    requires fixed { (0 < fixed) × (fixed < 100) }
    ensures value { MatchOption result (length bytes.now ≤ place) (λ size. (place < length bytes.now)
        × (size ≡ fixed + 28 * number_at bytes.now place 1)) }
    ensures low { IfSome result (λ size. (0 < size) × (size < 8000)) }
{
    if bytes.len() <= place {
        return None;
    }
    Some(fixed + 28 * byte_at(bytes, place) as usize)
}
