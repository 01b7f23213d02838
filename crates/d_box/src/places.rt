//! Where powers stand among candidates that rise. Places are found by halving the list.

ghost use Rattle.std.specs.Prelude.{◌≡◌, ◌≤◌, ◌≤ℤ◌, ◌<ℤ◌, length};
ghost use Rattle.std.specs.List.Sorted.{IsPartitionPoint};
ghost use Rattle.d_box.specs.Boxes.{number_at};
ghost use Rattle.d_box.specs.Candidates.{IsRising, in_range, next_above};
ghost use Rattle.d_box.specs.Splits.{middle};

use crate::space::Range;

/// How many candidates are below a power.
fn count_below(list: &[i64], power: i64) -> usize
    requires { IsRising list.now }
    ensures few { result ≤ length list.now }
    ensures place { IsPartitionPoint (λ c. c <ℤ power) (λ c. power ≤ℤ c) list.now result }
{
    list.partition_point(|candidate| *candidate < power)
}

/// How many candidates are at most a power.
fn count_up_to(list: &[i64], power: i64) -> usize
    requires { IsRising list.now }
    ensures few { result ≤ length list.now }
    ensures place { IsPartitionPoint (λ c. c ≤ℤ power) (λ c. power <ℤ c) list.now result }
{
    list.partition_point(|candidate| *candidate <= power)
}

/// The first candidate above a power, or that power where none is above it.
pub fn first_above(list: &[i64], power: i64) -> i64
    requires { IsRising list.now }
    ensures { result ≡ next_above list.now power }
{
    match list.get(count_up_to(list, power)) {
        Some(candidate) => *candidate,
        None => power,
    }
}

/// The candidate in the middle of those that a range has, the earlier of two.
pub fn middle_in(list: &[i64], range: &Range) -> i64
    requires rises { IsRising list.now }
    requires some { 1 ≤ length (in_range range.now list.now) }
    ensures { result ≡ number_at (in_range range.now list.now) (middle (length (in_range range.now list.now))) }
{
    let first = count_below(list, range.low);
    let count = count_up_to(list, range.high) - first;
    let place = (count - 1) / 2;
    list[first + place]
}
