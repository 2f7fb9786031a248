// The changes of a flash so far, each with the image before it. They exist only in proofs.
ghost use Rattle.std.specs.Prelude.{◌≡◌, List, [], ◌∷◌, ◌++◌};
ghost use Rattle.std.specs.Borrow.{ftrue};
ghost use Rattle.base_model.specs.Flash.{Change};
ghost use Rattle.flash_model.specs.Pasts.{changes_code};

use std::marker::Model;

/// The changes so far. It has no bytes, and its calls do nothing when they run.
#[derive(Drop)]
pub struct Past {
    pub ghost changes: { List Change } by { changes_code },
}

impl Model for Past {
    ghost also_owns = { λ _. ftrue };
}

/// A change that is about to be made: the image before it, and its range.
#[derive(Clone, Copy, Drop)]
pub struct Before<'a> {
    pub image: &'a [u8],
    pub at: usize,
    pub len: usize,
}

impl Past {
    /// No change so far.
    pub fn new() -> Past
        ensures { result.changes ≡ [] }
    {
        Past {}
    }

    /// These changes, and one more.
    #[inline(always)]
    pub fn then(&self, _change: &Before<'_>) -> Past
        ensures { result.changes ≡ self.now.changes ++
            (record { before = _change.now.image.now; at = _change.now.at; len = _change.now.len }) ∷ [] }
    {
        Past {}
    }
}
