// The heads of an image, and the geometry that they tell.
ghost use Rattle.std.specs.Prelude.{◌≡◌, ◌+◌, ◌-◌, ◌*◌, ◌<◌, ℕ, List, length, MatchOption};
ghost use Rattle.record_model.specs.Records.{slot_at};
ghost use Rattle.image_survey.specs.Heads.{heads_in, has_head, heads_of, Suits, IsSuiting, IsOfTurn, IsTried, IsGuess, IsGuessBefore};

use crate::looks::look_at;
use crate::totals::one_if;
use flash_model::Geometry;
use record_slots::{Head, NOT_KILLED, is_upright};

// The sizes of a sector are multiples of it.
const SECTOR_STEP: u64 = 256;

// The number behind that of the last slots that are tried: those of 16 sectors.
const LAST_TURN: u64 = 17 * SECTOR_STEP;

/// A geometry, and how many heads of records stand where its slots begin.
#[derive(Clone, Copy, Debug)]
pub struct Guess {
    pub geometry: Geometry,
    pub heads: u32,
}

/// The geometry that an image seems to have, by its length and its heads: that in which most heads stand, and of equals the one
/// with fewest sectors in a slot, and then with the smallest. An image can't tell how a slot is divided.
pub fn best_guess(image: &[u8]) -> Option<Guess>
    ensures { IsGuess image.now result }
{
    let mut best = None;
    for turn in 0..LAST_TURN {
        best = better(image, best, turn);
    }
    best
}

// The best of those before a turn, or that of the turn where it has more heads.
fn better(image: &[u8], best: Option<Guess>, turn: u64) -> Option<Guess>
    requires so_far { IsGuessBefore image.now turn best }
    requires turn { turn < 17 * 256 }
    ensures { IsGuessBefore image.now (turn + 1) result }
{
    match tried(image, turn) {
        Some(found) => better_of(best, found),
        None => best,
    }
}

// The one with more heads, the earlier one of equals.
fn better_of(best: Option<Guess>, found: Guess) -> Option<Guess>
    ensures { (image : List ℕ) (turn : ℕ) → IsGuessBefore image turn best → IsOfTurn image turn found
        → IsGuessBefore image (turn + 1) result }
{
    if found.heads > heads_of(&best) {
        Some(found)
    } else {
        best
    }
}

fn heads_of(best: &Option<Guess>) -> u32
    ensures { result ≡ heads_of best.now }
{
    match best {
        Some(best) => best.heads,
        None => 0,
    }
}

// The geometry of a turn, where it is one of the image's length, and its heads.
fn tried(image: &[u8], turn: u64) -> Option<Guess>
    requires { turn < 17 * 256 }
    ensures { IsTried image.now turn result }
{
    let sector = turn % SECTOR_STEP * SECTOR_STEP;
    let per_slot = turn / SECTOR_STEP;
    let geometry = suiting(image.len() as u64, sector, per_slot)?;
    let heads = count_heads(image, &geometry);
    Some(Guess { geometry, heads })
}

// The geometry of slots of this form that has so many bytes.
fn suiting(len: u64, sector: u64, per_slot: u64) -> Option<Geometry>
    requires sector { sector < 65536 }
    requires per_slot { per_slot < 17 }
    ensures { MatchOption result (¬ Suits len sector per_slot) (IsSuiting len sector per_slot) }
{
    let slot_size = sector * per_slot;
    if slot_size == 0 {
        return None;
    }
    let Ok(geometry) = Geometry::new(sector, per_slot, len / slot_size) else {
        return None;
    };
    if geometry.size() == len {
        Some(geometry)
    } else {
        None
    }
}

/// How many slots of an image have the head of a record's first slot.
pub fn count_heads(image: &[u8], geometry: &Geometry) -> u32
    requires sized { length image.now ≡ geometry.now.slot_size * geometry.now.slots }
    ensures { result ≡ heads_in geometry.now.slot_size geometry.now.slots image.now }
{
    let mut heads = 0;
    for slot in 0..geometry.slots as u32 {
        let found = one_if(has_head(image, geometry, slot));
        heads += found;
    }
    heads
}

// Whether a slot has the head of a record's first slot, and its tail mark, be it killed or not.
fn has_head(image: &[u8], geometry: &Geometry, slot: u32) -> bool
    requires sized { length image.now ≡ geometry.now.slot_size * geometry.now.slots }
    requires slot { slot < geometry.now.slots }
    ensures { result ≡ has_head (geometry.now.slot_size - 64) geometry.now.slots
        (slot_at geometry.now.slot_size image.now slot) }
{
    let look = look_at(image, geometry, slot);
    let head = Head {
        kill: NOT_KILLED,
        ..look.head
    };
    is_upright(&head, look.tail, geometry)
}
