// What kind of file an image is.
ghost use Rattle.std.specs.Prelude.{◌≡◌, ◌*◌, ℕ, List, length};
ghost use Rattle.image_survey.specs.Shown.{AreShown};
ghost use Rattle.image_survey.specs.Heads.{IsFileView, file_kind_by, is_unknown, unknown_in};

use crate::heads::{Guess, best_guess, count_heads};
use crate::totals::one_if;
use crate::{SlotKind, SlotView};
use flash_model::Geometry;

/// What kind of file an image is to a store of some geometry.
#[derive(Clone, Copy, Debug, PartialEq, Eq)]
pub enum FileKind {
    /// A store's flash of this geometry: its own, an erased one, or what lost power left of it.
    Store,
    /// A store's flash of another geometry: more heads stand where its slots begin.
    Other,
    /// None of ours: no head of a record stands in it, and more than two slots are of no known form.
    Foreign,
}

/// What is seen of a file: the heads in the geometry that it is looked at by, the geometry that it seems to have, and what
/// kind of file that makes it.
#[derive(Clone, Copy, Debug)]
pub struct FileView {
    pub heads: u32,
    pub guess: Option<Guess>,
    pub kind: FileKind,
}

/// What kind of file an image is, by its heads and by what its slots are.
pub fn view_file(image: &[u8], geometry: &Geometry, views: &[SlotView]) -> FileView
    requires sized { length image.now ≡ geometry.now.slot_size * geometry.now.slots }
    requires all { length views.now ≡ geometry.now.slots }
    requires shown { AreShown geometry.now.slot_size geometry.now.slots image.now views.now }
    ensures { IsFileView geometry.now.slot_size geometry.now.slots image.now result }
{
    let heads = count_heads(image, geometry);
    let guess = best_guess(image);
    let unknown = count_unknown(geometry, views);
    FileView {
        heads,
        guess,
        kind: file_kind_by(heads, &guess, unknown),
    }
}

#[tactic(auto, using(std::proofs::lemmas::Bool::Decides::nat_tests))]
fn file_kind_by(heads: u32, guess: &Option<Guess>, unknown: u32) -> FileKind
    ensures { result ≡ file_kind_by heads guess.now unknown }
{
    match guess {
        Some(guess) if guess.heads > heads => FileKind::Other,
        Some(_) => FileKind::Store,
        None if unknown > 2 => FileKind::Foreign,
        None => FileKind::Store,
    }
}

// The slots of no known form.
fn count_unknown(geometry: &Geometry, views: &[SlotView]) -> u32
    requires all { length views.now ≡ geometry.now.slots }
    ensures { (image : List ℕ) → AreShown geometry.now.slot_size geometry.now.slots image views.now
        → result ≡ unknown_in geometry.now.slot_size geometry.now.slots image }
{
    let mut unknown = 0;
    for slot in 0..geometry.slots as u32 {
        let found = one_if(is_unknown(views[slot as usize].kind));
        unknown += found;
    }
    unknown
}

fn is_unknown(kind: SlotKind) -> bool
    ensures { result ≡ is_unknown kind }
{
    matches!(kind, SlotKind::Unknown)
}
