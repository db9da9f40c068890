//! A sorted list of numbers, cut at a bound.
ghost use Rattle.std.specs.Prelude.{◌≡◌, ◌<◌, nat_lt};
ghost use Rattle.std.specs.List.Sorted.{IsNonDecreasing};
ghost use Rattle.rel_domains.specs.Curve.{IsCut};

/// The numbers below a bound, and the others.
pub fn cut_at(numbers: &[u64], bound: u64) -> (&[u64], &[u64])
    requires { IsNonDecreasing numbers.now }
    ensures { IsCut bound numbers.now result.0.now result.1.now }
{
    let end = numbers.partition_point(|number| *number < bound);
    numbers.split_at(end)
}
