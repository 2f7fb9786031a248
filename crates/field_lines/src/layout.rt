// A body: its fields, and the parts that repeat in it.
use crate::field::Field;

/// How many parts there are: some bits of a number of the body, from the bit `low` on.
#[derive(Clone, Copy)]
pub struct Count {
    pub at: u16,
    pub width: u16,
    pub low: u8,
    pub bits: u8,
}

/// How many bytes a part has.
#[derive(Clone, Copy)]
pub enum Size {
    Fixed(u16),
    /// As many as a number of the part says, and some more.
    Told { at: u16, width: u16, more: u16 },
    /// All that are left.
    Rest,
}

/// What a part has to say of the kind of what stands inside.
#[derive(Clone, Copy)]
pub enum Key {
    Number { at: u16, width: u16, number: u64 },
    Guid { at: u16, text: &'static [u8; 36] },
}

/// The fields of what stands inside a part.
#[derive(Clone, Copy)]
pub enum Content {
    Fields(&'static [Field]),
    /// Registers one behind another, each of so many bytes.
    Registers {
        width: u16,
        names: &'static [&'static str],
    },
}

/// What stands inside a part, from a place on, where a validation bit of the part and its key say so. Its own validation bits are its first bytes.
/// It is left out where none of its fields is shown.
#[derive(Clone, Copy)]
pub struct Inner {
    pub name: &'static str,
    pub bit: Option<u8>,
    pub key: Key,
    pub at: u16,
    pub content: Content,
}

/// Parts that stand one behind another.
#[derive(Clone, Copy)]
pub struct Parts {
    pub name: &'static str,
    pub count: Count,
    pub size: Size,
    /// Where the validation bits of a part stand in it.
    pub valid_at: u16,
    pub fields: &'static [Field],
    pub inner: &'static [Inner],
}

/// A body: where its validation bits stand, its fields, and its parts, the first of them at a place.
#[derive(Clone, Copy)]
pub struct Layout {
    pub valid_at: u16,
    pub fields: &'static [Field],
    pub parts_at: u16,
    pub parts: &'static [Parts],
}
