// Why an item isn't made.
ghost use Rattle.std.specs.Prelude.{◌≡◌, MatchResult, Some, None};
ghost use Rattle.item_makers.specs.Sizes.{refusal};

/// Why an item isn't made.
#[derive(Clone, Copy, Debug, PartialEq, Eq)]
pub enum MakeError {
    /// An item of so many bytes is longer than its length fields can say.
    Long { size: u64 },
    /// The room given is smaller than the item, which has so many bytes.
    Room { need: u64 },
}

/// Looks whether an item of so many bytes can be made in this room.
#[tactic(auto, using(std::proofs::lemmas::Bool::Decides::nat_tests))]
pub(crate) fn check_size(room: usize, size: usize) -> Result<(), MakeError>
    ensures { MatchResult result (λ _. refusal room size ≡ None) (λ e. refusal room size ≡ Some e) }
{
    if size > u32::MAX as usize {
        return Err(MakeError::Long { size: size as u64 });
    }
    if room < size {
        return Err(MakeError::Room { need: size as u64 });
    }
    Ok(())
}
