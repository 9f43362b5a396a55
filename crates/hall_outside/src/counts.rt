// Counts that stop at the greatest `u64`.
ghost use Rattle.std.specs.Prelude.{◌≡◌};
ghost use Rattle.hall_outside.specs.Counts.{raised as raised_count};

/// The count with `n` more.
pub(crate) fn raised(count: u64, n: u64) -> u64
    ensures { result ≡ raised_count count n }
{
    count.saturating_add(n)
}
