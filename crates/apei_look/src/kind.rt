// The letters and the words for what a slot is.
ghost use Rattle.std.specs.Prelude.{◌≡◌, ◌<◌};
ghost use Rattle.apei_look.specs.Words.{file_word, letter_of, word_of};

use image_survey::{FileKind, SlotKind};

/// The letter of the picture.
pub fn letter(kind: SlotKind) -> char
    ensures letter { result ≡ letter_of kind }
    ensures ascii { result < 128 }
{
    match kind {
        SlotKind::First => 'R',
        SlotKind::Further => '+',
        SlotKind::SecondCopy => '2',
        SlotKind::Orphan => 'o',
        SlotKind::Filling => 'w',
        SlotKind::Killed => 'k',
        SlotKind::Erased => '.',
        SlotKind::Unknown => '?',
    }
}

/// The word of a line.
pub fn word<'a>(kind: SlotKind) -> &'a str
    ensures { result.now ≡ word_of kind }
{
    match kind {
        SlotKind::First => "first",
        SlotKind::Further => "further",
        SlotKind::SecondCopy => "second-copy",
        SlotKind::Orphan => "orphan",
        SlotKind::Filling => "filling",
        SlotKind::Killed => "killed",
        SlotKind::Erased => "erased",
        SlotKind::Unknown => "unknown",
    }
}

/// The word of a kind of file.
pub fn file_word<'a>(is_medium: bool, kind: FileKind) -> &'a str
    ensures { result.now ≡ file_word is_medium kind }
{
    match kind {
        _ if is_medium => "medium",
        FileKind::Store => "store",
        FileKind::Other => "other-geometry",
        FileKind::Foreign => "foreign",
    }
}
