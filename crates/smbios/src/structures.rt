// The structures of a table, one after another.
ghost use Rattle.std.specs.Prelude.{◌≡◌, ◌++◌, ◌≤◌, ◌<◌, length, drop, take, MatchOption};
ghost use Rattle.smbios.specs.Structures.{BeginsNone, EndsInZeros, HasNoZeros, IsFormatted, IsStructure, bytes_of, has_number, kind_of, pair};

use apei_bytes::{byte_at, get_u16};
use memchr::memmem;

/// A structure (DSP0134, 6.1.2 and 6.1.3).
#[derive(Clone, Copy)]
pub struct Structure<'a> {
    /// Its formatted area: the type, the length of this area, the handle, and what the type says.
    pub formatted: &'a [u8],
    /// Its texts, each with a zero byte after it, and one more zero byte.
    pub strings: &'a [u8],
}

impl Structure<'_> {
    /// Its type (DSP0134, 7).
    pub fn kind(&self) -> u8
        ensures { result ≡ kind_of (pair self.now.formatted.now self.now.strings.now) }
    {
        if self.formatted.len() == 0 {
            return 0;
        }
        byte_at(self.formatted, 0)
    }

    /// Whether two bytes of its formatted area, which begin at `at`, are there and are this number.
    pub fn has_number(&self, at: usize, number: u16) -> bool
        requires { at < 256 }
        ensures { result ≡ has_number (pair self.now.formatted.now self.now.strings.now) at number }
    {
        at + 2 <= self.formatted.len() && get_u16(self.formatted, at) == number
    }
}

/// The structure that bytes begin with, and the bytes after it.
#[derive(Clone, Copy)]
pub struct Found<'a> {
    pub structure: Structure<'a>,
    pub rest: &'a [u8],
}

/// The least length of a formatted area.
const HEAD: usize = 4;

const LENGTH_AT: usize = 1;

// What ends the texts.
const ZEROS: &[u8; 2] = b"\0\0";

/// The structure that the bytes begin with.
pub fn first_structure(bytes: &[u8]) -> Option<Found<'_>>
    ensures { MatchOption result (BeginsNone bytes.now) (λ found. IsStructure (pair found.structure.formatted.now found.structure.strings.now)
        × (bytes.now ≡ bytes_of (pair found.structure.formatted.now found.structure.strings.now) ++ found.rest.now)) }
{
    let Some(len) = formatted_len(bytes) else {
        return None;
    };
    let others = behind(bytes, len);
    let Some(strings_len) = strings_len(others) else {
        return None;
    };
    Some(Found {
        structure: Structure {
            formatted: &bytes[..len],
            strings: &others[..strings_len],
        },
        rest: behind(others, strings_len),
    })
}

// The bytes from a place on.
pub(crate) fn behind(bytes: &[u8], at: usize) -> &[u8]
    requires { at ≤ length bytes.now }
    ensures { result.now ≡ drop at bytes.now }
{
    &bytes[at..]
}

// The length of the formatted area that stands first.
fn formatted_len(bytes: &[u8]) -> Option<usize>
    ensures { MatchOption result (BeginsNone bytes.now) (IsFormatted bytes.now) }
{
    if bytes.len() < HEAD {
        return None;
    }
    let len = byte_at(bytes, LENGTH_AT) as usize;
    if len < HEAD {
        return None;
    }
    if bytes.len() < len {
        return None;
    }
    Some(len)
}

// The length of the texts that stand first, with the zero bytes at their end.
fn strings_len(bytes: &[u8]) -> Option<usize>
    ensures { MatchOption result (HasNoZeros bytes.now) (λ len. (len ≤ length bytes.now) × EndsInZeros (take len bytes.now)) }
{
    match memmem::find(bytes, ZEROS) {
        Some(at) => Some(at + ZEROS.len()),
        None => None,
    }
}
