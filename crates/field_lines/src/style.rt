// How fields and headings are written.
ghost use Rattle.std.specs.Prelude.{◌≡◌, ◌≤◌, ◌<◌, ◌+◌, ◌^◌, ◌++◌, length, OnOk, IsTrue};
ghost use Rattle.field_lines.specs.Fields.{is_sound};
ghost use Rattle.field_lines.specs.Code.{field_of, heading_of};

use crate::field::Field;
use std::alloc::AllocError;

/// How deep a body lies, 0 outside and 1 a part, and where it begins in what offsets are counted from.
#[derive(Clone, Copy)]
pub struct Location {
    pub depth: u8,
    pub base: u64,
}

/// What is written beside fields.
#[derive(Clone, Copy)]
pub enum Mark {
    /// Before a part, which has a number from 0 on.
    Part { name: &'static str, index: u64 },
    /// Before what stands inside a part.
    Inner { name: &'static str },
    /// Behind either.
    End,
    /// Behind the last of at least one part.
    EndParts,
}

/// How a field of a body is written, and a mark.
pub trait Style {
    ghost use Rattle.std.specs.Prelude.{ℕ, List};
    ghost use Rattle.field_lines.specs.Fields.{Field};
    ghost use Rattle.field_lines.specs.Layouts.{Heading};

    // What is written of a field, at a depth, of a body that begins at a place.
    ghost text: { Self → ℕ → ℕ → Field → List ℕ → List ℕ };

    // What is written of a mark, at a depth and a place.
    ghost heading: { Self → ℕ → ℕ → Heading → List ℕ };

    /// Appends a field of a body.
    fn add(
        &self,
        location: Location,
        field: &Field,
        body: &[u8],
        out: &mut Vec<u8>,
    ) -> Result<(), AllocError>
        requires sound { IsTrue (is_sound (field_of field.now)) }
        requires within { field.now.at + field.now.width ≤ length body.now }
        requires place { location.base + length body.now < 2 ^ 64 }
        ensures { OnOk result (out.new.items ≡ out.old.items ++ text self.now location.depth location.base
            (field_of field.now) body.now) };

    /// Appends a mark.
    fn mark(&self, location: Location, mark: &Mark, out: &mut Vec<u8>) -> Result<(), AllocError>
        ensures { OnOk result (out.new.items ≡ out.old.items ++ heading self.now location.depth location.base
            (heading_of mark.now)) };
}
