// What a slot is.
ghost use Rattle.std.specs.Prelude.{◌≡◌};
ghost use Rattle.record_slots.specs.Slots.{numbers_of};
ghost use Rattle.image_survey.specs.Kinds.{kind_by, kind_by_marks};
ghost use Rattle.image_survey.specs.Counts.{is_free, is_record, is_second_copy};

use crate::Look;
use record_slots::{
    FORMAT_FURTHER, GATE_CLOSED, GATE_FURTHER, GATE_OPEN, Head, NOT_KILLED, TAIL_MARK,
};

/// What a slot is.
#[derive(Clone, Copy, Debug, PartialEq, Eq)]
pub enum SlotKind {
    /// The first slot of a record that a boot finds.
    First,
    /// A further slot of such a record.
    Further,
    /// An upright slot that is not the first slot of its identifier's record. A boot ends it.
    SecondCopy,
    /// A whole further slot of no record that a boot finds.
    Orphan,
    /// A slot with a closed gate, or a further slot without its tail mark: it was being filled or erased.
    Filling,
    /// A first slot that was killed, as its record was cleared or replaced.
    Killed,
    /// A slot of bytes 0xFF alone.
    Erased,
    /// None of these.
    Unknown,
}

impl SlotKind {
    /// Whether no record that a boot finds stands in such a slot.
    pub fn is_free(self) -> bool
        ensures { result ≡ is_free self }
    {
        !matches!(self, SlotKind::First | SlotKind::Further)
    }

    /// Whether such a slot is the first slot of a record that a boot finds.
    pub fn is_record(self) -> bool
        ensures { result ≡ is_record self }
    {
        matches!(self, SlotKind::First)
    }

    /// Whether a boot ends such a slot.
    pub fn is_second_copy(self) -> bool
        ensures { result ≡ is_second_copy self }
    {
        matches!(self, SlotKind::SecondCopy)
    }
}

/// What a slot is by these tests and by its marks.
pub fn kind_of(
    is_first: bool,
    is_up: bool,
    is_further: bool,
    is_erased: bool,
    look: &Look,
) -> SlotKind
    ensures { result ≡ kind_by is_first is_up is_further is_erased (numbers_of look.now.head) look.now.tail }
{
    if is_first {
        SlotKind::First
    } else if is_up {
        SlotKind::SecondCopy
    } else if is_further {
        SlotKind::Further
    } else if is_erased {
        SlotKind::Erased
    } else {
        kind_by_marks(&look.head, look.tail)
    }
}

// What a slot is that no record has, and that is not erased.
#[tactic(auto, using(std::proofs::lemmas::Bool::Decides::nat_tests))]
fn kind_by_marks(head: &Head, tail: u8) -> SlotKind
    ensures { result ≡ kind_by_marks (numbers_of head.now) tail }
{
    if head.gate == GATE_OPEN {
        if head.kill == NOT_KILLED {
            SlotKind::Unknown
        } else {
            SlotKind::Killed
        }
    } else if head.gate == GATE_FURTHER && head.format == FORMAT_FURTHER {
        if tail == TAIL_MARK {
            SlotKind::Orphan
        } else {
            SlotKind::Filling
        }
    } else if head.gate == GATE_CLOSED {
        SlotKind::Filling
    } else {
        SlotKind::Unknown
    }
}
