// A law on the medium of a flash, for the crates above: the function does nothing, and its clauses are the law.
ghost use Rattle.std.specs.Prelude.{◌≡◌, ℕ, ◌+◌, ◌≤◌, List, length};
ghost use Rattle.base_model.specs.Bytes.{part, put_at, SameOutside};
ghost use Rattle.base_model.specs.Flash.{Told, CrashImage, image_at};
ghost use Rattle.erst_port.specs.Dues.{IsDue};
ghost use Rattle.erst_port.specs.Parts.{held, made_behind};
ghost use Rattle.erst_port.specs.declared.due.Kind.{Kind};
ghost use Rattle.erst_port.specs.declared.parts.Made.{Made};

/// A medium that made the first `s` changes of its flash holds what the flash held then. With the bytes of the change that is due it
/// holds what the flash held after it, and whatever power lost in that change leaves in its range is a crash image of the flash. The same
/// holds of a part of the change, behind whose first bytes the medium stands.
pub fn medium_follows()
    ensures made { (sector : ℕ) (told : Told) (s : ℕ) (kind : Kind) (at : ℕ) (bytes medium : List ℕ)
        → IsDue sector told s kind at bytes → medium ≡ image_at told s
        → put_at medium at bytes ≡ image_at told (s + 1) }
    ensures torn { (sector : ℕ) (told : Told) (s : ℕ) (kind : Kind) (at : ℕ) (bytes medium left : List ℕ)
        → IsDue sector told s kind at bytes → medium ≡ image_at told s → SameOutside at (length bytes) medium left
        → CrashImage told s left }
    ensures whole { (told : Told) (made : Made) → made.bytes ≡ 0 → held told made ≡ image_at told made.changes }
    ensures next { (sector : ℕ) (told : Told) (made : Made) (kind : Kind) (place : ℕ) (whole bytes : List ℕ)
        → IsDue sector told made.changes kind place whole → made.bytes + length bytes ≤ length whole
        → bytes ≡ part whole made.bytes (length bytes)
        → put_at (held told made) (place + made.bytes) bytes ≡ held told (made_behind made (length bytes) (length whole)) }
    ensures torn_part { (sector : ℕ) (told : Told) (made : Made) (kind : Kind) (place : ℕ) (whole : List ℕ) (n : ℕ)
        (left : List ℕ) → IsDue sector told made.changes kind place whole → made.bytes + n ≤ length whole
        → SameOutside (place + made.bytes) n (held told made) left → CrashImage told made.changes left }
{}
