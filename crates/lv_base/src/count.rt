//! Counts that stay at the greatest `u64`.
ghost use Rattle.std.specs.Prelude.{◌≡◌};
ghost use Rattle.lv_base.specs.Counts.{raised_by};

/// `by` more, or the greatest `u64`.
pub(crate) fn raised(count: u64, by: u64) -> u64
    ensures { result ≡ raised_by by count }
{
    count.saturating_add(by)
}
