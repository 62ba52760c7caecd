// Counts of 64 bits that stop at the greatest number.
ghost use Rattle.std.specs.Prelude.{◌≡◌};
ghost use Rattle.aos_dev.specs.Count.{Rose, next};

// The count after one more.
pub fn next(count: u64) -> u64
    ensures value { result ≡ next count }
    ensures rose { Rose count result }
{
    count.saturating_add(1)
}
