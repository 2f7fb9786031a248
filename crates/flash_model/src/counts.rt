// Counts that stand still at the last value of their type.
ghost use Rattle.std.specs.Prelude.{◌≡◌};
ghost use Rattle.base_model.specs.Flash.{next_count};

/// One more than a count, which stands still at the last value of its type.
pub fn next_count(count: u64) -> u64
    ensures { result ≡ next_count count }
{
    count.saturating_add(1)
}
