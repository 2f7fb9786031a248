// The texts of a structure.
ghost use Rattle.std.specs.Prelude.{◌≡◌, ◌++◌, ◌∷◌, ◌<◌, ◌≤◌, length, drop, option_map, MatchOption};
ghost use Rattle.smbios.specs.Structures.{pair};
ghost use Rattle.smbios.specs.Texts.{HasNoText, IsNumbered, IsText, IsTextAt};

use crate::structures::{Structure, behind};
use apei_bytes::byte_at;
use memchr::memchr;

// The text that stands first, and the bytes after its zero byte.
#[derive(Clone, Copy)]
struct First<'a> {
    text: &'a [u8],
    rest: &'a [u8],
}

impl<'a> Structure<'a> {
    /// The text whose number stands at a place of the formatted area (DSP0134, 6.1.3). There is none where the area ends before it, where
    /// the number is 0, and where the structure has fewer texts.
    pub fn text_at(&self, at: usize) -> Option<&'a [u8]>
        requires { at < 256 }
        ensures { IsTextAt (pair self.now.formatted.now self.now.strings.now) at (option_map (λ it. it.now) result) }
    {
        if self.formatted.len() < at + 1 {
            return None;
        }
        numbered(self.strings, byte_at(self.formatted, at))
    }
}

// The text of a number.
fn numbered(strings: &[u8], number: u8) -> Option<&[u8]>
    ensures { IsNumbered strings.now number (option_map (λ it. it.now) result) }
{
    if number == 0 {
        return None;
    }
    let mut rest = strings;
    for before in 1..number {
        let Some(first) = first_text(rest) else {
            return None;
        };
        rest = first.rest;
    }
    let Some(first) = first_text(rest) else {
        return None;
    };
    Some(first.text)
}

fn first_text(bytes: &[u8]) -> Option<First<'_>>
    ensures { MatchOption result (HasNoText bytes.now) (λ first. IsText first.text.now × (bytes.now ≡ first.text.now ++ 0 ∷ first.rest.now)) }
{
    let Some(len) = memchr(0, bytes) else {
        return None;
    };
    if len == 0 {
        return None;
    }
    Some(First {
        text: &bytes[..len],
        rest: behind(bytes, len + 1),
    })
}
