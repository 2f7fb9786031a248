// What a store has begun: the state between two changes of a write or a clear.
ghost use Rattle.std.specs.Prelude.{◌≡◌};

use crate::{Draft, Stage};
use record_slots::{RecordId, SlotOf};

/// What is pending.
#[derive(Clone, Copy)]
pub enum Begun {
    Nothing,
    /// The write of a record, up to its gate, and the place of the record that it replaces.
    Write {
        draft: Draft,
        stage: Stage,
        replaced: Option<SlotOf>,
    },
    /// The end of the record at this place, which was replaced.
    OldCopy {
        draft: Draft,
        place: SlotOf,
    },
    /// The clearing of an identifier, whose record is at this place.
    Clear {
        id: RecordId,
        place: SlotOf,
    },
}

impl Begun {
    ghost use Rattle.record_store.specs.Kept.{is_nothing};

    /// Whether nothing is pending.
    pub fn is_nothing(&self) -> bool
        ensures { result ≡ is_nothing self.now }
    {
        matches!(self, Begun::Nothing)
    }
}
