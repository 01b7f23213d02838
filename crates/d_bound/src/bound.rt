//! The bound and the bill of a box.

ghost use Rattle.std.specs.Prelude.{◌≡◌, ◌+ℤ◌, ◌^◌, ◌<◌, ◌*◌, length};
ghost use Rattle.d_num.specs.Amount.{IsWithin, IsWatt};
ghost use Rattle.d_bill.specs.Schedules.{IsFeasible};
ghost use Rattle.d_bill.specs.Bills.{bill_of, raised};
ghost use Rattle.d_bound.specs.Nodes.{low_charge, low_charges};
ghost use Rattle.d_bound.specs.BoundSteps.{ArePeaksInRange};

use d_bill::{Problem, Tally};
use d_box::{Range, Space};
use d_num::{Money, Watt};

/// The bound of a box whose first cheapest schedule's energy costs this much, where no period is tiered: the fixed charge, the groups'
/// charges at the low ends and that cost, raised to the minimum.
pub(crate) fn bound_of(problem: &Problem, space: &Space, cost: Money) -> Money
    requires peaks { ArePeaksInRange problem.now space.now }
    requires cost { IsWithin (10 ^ 36) cost }
    ensures { result ≡ raised problem.now.minimum ((problem.now.fixed +ℤ low_charges problem.now space.now) +ℤ cost) }
{
    let value = problem.fixed().plus(low_charges(problem, space)).plus(cost);
    match problem.minimum() {
        Some(minimum) => minimum.greatest(value),
        None => value,
    }
}

/// What all groups charge at the low ends of their ranges.
fn low_charges(problem: &Problem, space: &Space) -> Money
    requires peaks { ArePeaksInRange problem.now space.now }
    ensures value { result ≡ low_charges problem.now space.now }
    ensures range { IsWithin (2 * 10 ^ 36) result }
{
    let mut sum = Money::new(0).unwrap();
    for group in 0..problem.groups().len() {
        sum = sum.plus(low_charge(problem, space, group));
    }
    sum
}

/// What a group charges at the low end of its range.
fn low_charge(problem: &Problem, space: &Space, group: usize) -> Money
    requires peaks { ArePeaksInRange problem.now space.now }
    requires group { group < length problem.now.peaks }
    ensures value { result ≡ low_charge problem.now space.now group }
    ensures range { IsWithin (3 * 10 ^ 34) result }
{
    let peak = &problem.groups()[group];
    // shows the floor's range
    let _floor = peak.floor.value();
    peak.charge(low_end(&space.peaks[group]))
}

/// The low end of a range of powers.
fn low_end(range: &Range) -> Watt
    requires { IsWatt range.now.low }
    ensures { result ≡ range.now.low }
{
    Watt::new(range.low).unwrap()
}

/// The bill of a feasible schedule.
pub(crate) fn bill_of(problem: &Problem, schedule: &[u8]) -> Money
    requires { IsFeasible problem.now schedule.now }
    ensures { result ≡ bill_of problem.now schedule.now }
{
    let mut tally = Tally::new();
    match problem.walk(schedule, &mut tally) {
        Ok(()) => problem.bill(&tally),
        Err(_) => unreachable!(),
    }
}
