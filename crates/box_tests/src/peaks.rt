//! A month with one group, at 10 USD per kW, whose candidates are 0, 1000, 2000, 4000, 5000 and 6000 W.

ghost use Rattle.std.specs.Prelude.{◌≡◌, length, IsTrue, IfOk};
ghost use Rattle.std.specs.List.{All};
ghost use Rattle.d_box.specs.Candidates.{AreEnds};
ghost use Rattle.d_box.specs.Splits.{HasDemandPrices};

use d_box::{Candidates, Range, Space, Split, halves, holds, split_of};
use d_num::{NoMemory, Rate, Watt};
use d_tier::{Peak, Tiers};
use std::alloc::Global;

/// A box of one peak.
fn space(low: i64, high: i64) -> Space {
    let nothing = Range { low: 0, high: 0 };
    let mut space = Space {
        peaks: [nothing; 37],
        totals: [nothing; 36],
    };
    space.peaks[0] = Range { low, high };
    space
}

/// The candidates, in no order and some of them twice.
fn candidates(alloc: Global) -> Result<Candidates, NoMemory> {
    let mut list = Vec::new(alloc);
    for power in [5000, 0, 1000, 6000, 1000, 4000, 2000, 5000] {
        list.push(power)?;
    }
    let mut lists = Vec::new(alloc);
    lists.push(list)?;
    Ok(Candidates::from_lists(lists))
}

/// One group at 10 USD per kW.
fn groups() -> [Peak; 1]
    ensures { All HasDemandPrices result }
{
    [Peak {
        tiers: Tiers::one(Rate::new(10_000_000_000_000_000_000).unwrap()),
        floor: Watt::new(0).unwrap(),
    }]
}

/// Whether the box's peak goes from a candidate to a candidate, and there is no other group.
fn is_ready(space: &Space, candidates: &Candidates) -> bool
    ensures { IsTrue result → AreEnds space.now candidates.now }
{
    if candidates.count() != 1 {
        return false;
    }
    let list = candidates.list(0);
    let range = &space.peaks[0];
    0 <= range.low
        && range.low <= range.high
        && range.high <= 10_000_000_000_000
        && list.contains(&range.low)
        && list.contains(&range.high)
}

#[test]
fn candidates_rise_and_are_there_once(rt: HostRuntime) -> Result<(), NoMemory> {
    let candidates = candidates(rt.alloc())?;
    assert_eq!(rt; candidates.count(), 1);
    assert!(rt; candidates.list(0) == [0, 1000, 2000, 4000, 5000, 6000].as_slice());
    assert_eq!(rt; candidates.range(0), Range { low: 0, high: 6000 });
    assert_eq!(rt; candidates.next_above(0, 2000), 4000);
    assert_eq!(rt; candidates.next_above(0, 6000), 6000);
    Ok(())
}

#[test]
fn splits_a_peak_in_the_middle_of_its_candidates(rt: HostRuntime) -> Result<(), NoMemory> {
    let candidates = candidates(rt.alloc())?;
    assert_eq!(rt; candidates.count(), 1);
    for (low, high, at, above) in [
        (0, 6000, 2000, 4000),
        (4000, 6000, 5000, 6000),
        (0, 2000, 1000, 2000),
    ] {
        let whole = space(low, high);
        assert!(rt; is_ready(&whole, &candidates));
        let split = split_of(&whole, &[], &groups(), &candidates);
        assert_eq!(rt; split, Some(Split::Peak { group: 0, at }));
        let mut left = whole;
        let mut right = whole;
        halves(
            &whole,
            Split::Peak { group: 0, at },
            at,
            candidates.next_above(0, at),
            &mut left,
            &mut right,
        );
        assert_eq!(rt; left.peaks[0], Range { low, high: at });
        assert_eq!(rt; right.peaks[0], Range { low: above, high });
        assert!(rt; holds(&left, &[at], &[]) && !holds(&right, &[at], &[]));
        assert!(rt; holds(&right, &[above], &[]) && !holds(&left, &[above], &[]));
    }
    Ok(())
}

#[test]
fn a_box_of_one_power_is_a_point(rt: HostRuntime) -> Result<(), NoMemory> {
    let candidates = candidates(rt.alloc())?;
    assert_eq!(rt; candidates.count(), 1);
    let point = space(5000, 5000);
    assert!(rt; is_ready(&point, &candidates));
    assert_eq!(rt; split_of(&point, &[], &groups(), &candidates), None);
    Ok(())
}
