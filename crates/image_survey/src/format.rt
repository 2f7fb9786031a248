// The changes of a format.
ghost use Rattle.std.specs.Prelude.{◌≡◌, ◌*◌, ◌≤◌, ◌^◌, slice_get, Option, Some, None, MatchOption};
ghost use Rattle.image_survey.specs.Formats.{format_changes, marks, erases, puts_header, content_bytes, flash_sectors};

use crate::header::{ENDED, ENDED_AT, HEADER, WHOLE, WHOLE_AT, header_of};
use flash_model::Geometry;

/// What a change of a format leaves in its range.
#[derive(Clone, Copy, Debug, PartialEq, Eq)]
pub enum Content {
    /// It programs the header.
    Header([u8; 48]),
    /// It programs one byte, a mark.
    Mark([u8; 1]),
    /// It erases a sector: each byte is 0xFF then.
    Erased,
}

/// A change of a format: `len` bytes of the medium from `at` on.
#[derive(Clone, Copy, Debug, PartialEq, Eq)]
pub struct FormatChange {
    pub at: u64,
    pub len: u64,
    pub content: Content,
}

impl FormatChange {
    /// The bytes that it programs, none where it erases.
    pub fn bytes(&self) -> Option<&[u8]>
        ensures { MatchOption result (self.now.content ≡ Content.Erased)
            (λ bytes. bytes.now ≡ content_bytes self.now.len self.now.content) }
    {
        match &self.content {
            Content::Header(bytes) => Some(bytes),
            Content::Mark(byte) => Some(byte),
            Content::Erased => None,
        }
    }
}

/// Change number `step` of a format with this geometry, from 0; none behind the last. Made one after another they leave a medium of the
/// geometry whose flash is erased, whatever was there before.
pub fn format_change(geometry: &Geometry, step: u64) -> Option<FormatChange>
    ensures { result ≡ slice_get (format_changes geometry.now) step }
{
    let sectors = geometry.per_slot() * geometry.slots();
    if step == 0 {
        return Some(marked(ENDED_AT, ENDED));
    }
    if step <= sectors {
        return Some(erased(geometry, step));
    }
    match step - sectors {
        1 => Some(erased(geometry, 0)),
        2 => Some(headed(geometry)),
        3 => Some(marked(WHOLE_AT, WHOLE)),
        _ => None,
    }
}

fn marked(at: u64, byte: u8) -> FormatChange
    ensures { result ≡ marks at byte }
{
    FormatChange {
        at,
        len: 1,
        content: Content::Mark([byte]),
    }
}

fn erased(geometry: &Geometry, number: u64) -> FormatChange
    requires { number ≤ flash_sectors geometry.now }
    ensures { result ≡ erases geometry.now number }
{
    FormatChange {
        at: number * geometry.sector(),
        len: geometry.sector(),
        content: Content::Erased,
    }
}

fn headed(geometry: &Geometry) -> FormatChange
    ensures { result ≡ puts_header geometry.now }
{
    FormatChange {
        at: 0,
        len: HEADER as u64,
        content: Content::Header(header_of(geometry)),
    }
}
