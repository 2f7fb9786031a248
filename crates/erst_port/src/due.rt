// A change that the medium has to make.

/// What a change does to its range.
#[derive(Clone, Copy, Debug, PartialEq, Eq)]
pub enum Kind {
    /// It programs bytes that are erased.
    Program,
    /// It erases a sector.
    Erase,
}

/// A change that was made in memory and is due on the medium: from `at` on, these bytes. Those of an erase are 0xFF.
#[derive(Clone, Copy, Debug)]
pub struct Due<'a> {
    pub kind: Kind,
    pub at: usize,
    pub bytes: &'a [u8],
}
