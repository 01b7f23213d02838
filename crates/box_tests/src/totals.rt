//! A tiered period whose price is 0.10 USD per kWh up to 300 kWh, 0.20 up to 600 kWh and 0.05 above.

ghost use Rattle.std.specs.Prelude.{IsTrue, ◌↔◌, ◌*◌, ◌^◌};
ghost use Rattle.d_num.specs.Amount.{IsWithin};
ghost use Rattle.d_box.specs.Trials.{HasEnergyPrices};

use d_box::{Candidates, Range, Slopes, Space, Split, halves, holds, split_of, trial, trial_count};
use d_num::Rate;
use d_tier::Tiers;
use std::process::Abort;

const CENT: i128 = 10_000_000_000_000_000;

/// A box of one total.
fn space(low: i64, high: i64) -> Space {
    let nothing = Range { low: 0, high: 0 };
    let mut space = Space {
        peaks: [nothing; 37],
        totals: [nothing; 36],
    };
    space.totals[0] = Range { low, high };
    space
}

/// A price of so many units.
fn rate(rt: &impl Abort, units: i128) -> Rate {
    Rate::new(units).expect(rt, "a price")
}

/// The tiers of the period.
fn period(rt: &impl Abort) -> Tiers {
    table(rt, 10 * CENT, &[(300_000, 20 * CENT), (600_000, 5 * CENT)])
}

/// The table of a first price and of further ends and prices.
fn table(rt: &impl Abort, first: i128, rest: &[(i64, i128)]) -> Tiers {
    let mut tiers = Tiers::one(rate(rt, first));
    let mut last = 0;
    for (end, price) in rest {
        assert!(rt; tiers.count() < 16 && last < *end && *end <= 10_000_000_000_000);
        tiers.add(*end, rate(rt, *price));
        last = *end;
    }
    tiers
}

/// Whether no price is above 3000 USD in size.
fn has_prices(tiers: &Tiers) -> bool
    ensures { IsTrue result → HasEnergyPrices tiers.now }
{
    let lowest = tiers.lowest_price();
    let highest = tiers.highest_price();
    is_small(lowest) && is_small(highest)
}

/// Whether a price is at most 3000 USD in size.
fn is_small(price: Rate) -> bool
    ensures { IsTrue result ↔ IsWithin (3 * 10 ^ 21) price }
{
    let units = price.units();
    -3_000_000_000_000_000_000_000 <= units && units <= 3_000_000_000_000_000_000_000
}

#[test]
fn splits_a_total_at_the_lowest_end_inside(rt: HostRuntime) {
    let candidates = Candidates::from_lists(Vec::new(rt.alloc()));
    assert_eq!(rt; candidates.count(), 0);
    let energy = [period(&rt)];
    for (low, high, at) in [
        (0, 672_000, Some(300_000)),
        (300_000, 672_000, Some(600_000)),
        (300_000, 600_000, None),
        (600_000, 672_000, None),
    ] {
        let split = split_of(&space(low, high), &energy, &[], &candidates);
        assert_eq!(rt; split, at.map(|at| Split::Total { index: 0, at }));
    }
}

#[test]
fn both_halves_of_a_total_have_its_cut(rt: HostRuntime) {
    let whole = space(0, 672_000);
    let mut left = whole;
    let mut right = whole;
    let split = Split::Total {
        index: 0,
        at: 300_000,
    };
    halves(&whole, split, 0, 0, &mut left, &mut right);
    for (total, in_left, in_right) in [
        (0, true, false),
        (299_999, true, false),
        (300_000, true, true),
        (300_001, false, true),
        (672_000, false, true),
    ] {
        assert_eq!(rt; holds(&left, &[], &[total]), in_left);
        assert_eq!(rt; holds(&right, &[], &[total]), in_right);
    }
}

#[test]
fn moves_a_slope_by_quarters_of_the_spread(rt: HostRuntime) {
    assert_eq!(rt; trial_count(1), 10);
    let energy = [period(&rt)];
    assert!(rt; has_prices(&energy[0]));
    let whole = space(300_000, 672_000);
    let mut parent = Slopes {
        rates: [rate(&rt, 0); 36],
    };
    let mut slopes = parent;
    let quarter = CENT / 4;
    parent.rates[0] = rate(&rt, 100 * quarter);
    for (number, at_root, below) in [
        (0usize, 80, 100),
        (1, 80, 80),
        (2, 95, 115),
        (3, 110, 130),
        (5, 140, 140),
        (6, 65, 85),
        (9, 20, 40),
    ] {
        assert!(rt; number < 10);
        trial(&whole, &energy, None, number, &mut slopes);
        assert_eq!(rt; slopes.rates[0].units(), at_root * quarter);
        trial(&whole, &energy, Some(&parent), number, &mut slopes);
        assert_eq!(rt; slopes.rates[0].units(), below * quarter);
        assert_eq!(rt; slopes.rates[35].units(), 0);
    }
}
