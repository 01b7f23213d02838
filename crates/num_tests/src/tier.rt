//! A table of tiers.

use d_num::{Rate, Watt};
use d_tier::{Peak, Tiers};
use std::process::Abort;

#[test]
fn neighbours_of_one_price_are_joined(rt: HostRuntime) {
    let tiers = table(&rt, 5, &[(100, 5), (200, 8), (300, 8), (400, 5)]);
    let tiers = tiers.copied();
    assert_eq!(rt; tiers.count(), 3);
    let want = [(5, Some(200)), (8, Some(400)), (5, None)];
    for i in 0..3usize {
        assert_eq!(rt;
            (tiers.price(i).units(), tiers.end(i)),
            want[i],
            "at tier {i}"
        );
    }
    assert_eq!(rt;
        (tiers.lowest_price().units(), tiers.highest_price().units()),
        (5, 8)
    );
}

#[test]
fn each_tier_charges_its_part_of_an_amount(rt: HostRuntime) {
    let cent = 10_000_000_000_000_000;
    let tiers = table(&rt, 10 * cent, &[(500_000, 20 * cent)]);
    let cents = [
        (0, 0),
        (500_000, 5_000_000),
        (500_001, 5_000_020),
        (672_000, 8_440_000),
    ];
    for (amount, want) in cents {
        assert!(rt; 0 <= amount && amount <= 672_000);
        assert_eq!(rt; tiers.charge(amount).units(), want * cent, "of {amount} Wh");
    }
}

#[test]
fn the_least_gap_is_at_an_end_of_the_range_or_of_a_tier(rt: HostRuntime) {
    let cent = 10_000_000_000_000_000;
    let tiers = table(&rt, 10 * cent, &[(500_000, 20 * cent)]);
    let cents = [(5, 1_500_000), (15, -2_500_000), (25, -8_500_000)];
    for (slope, want) in cents {
        assert_eq!(rt;
            tiers
                .least_gap(300_000, 700_000, rate(&rt, slope * cent))
                .units(),
            want * cent,
            "at a slope of {slope} cents"
        );
    }
}

#[test]
fn a_tier_holds_amounts_below_its_end(rt: HostRuntime) {
    let tiers = table(&rt, 10, &[(500_000, 20)]);
    assert_eq!(rt; (tiers.holding(499_999), tiers.holding(500_000)), (0, 1));
    assert_eq!(rt; tiers.inner_end(300_000, 700_000), Some(500_000));
    assert_eq!(rt; tiers.inner_end(500_000, 700_000), None);
}

#[test]
fn a_peak_is_charged_from_its_floor_on(rt: HostRuntime) {
    let peak = Peak {
        tiers: table(&rt, 3, &[(2_000, 5)]),
        floor: watts(&rt, 2_500),
    };
    for (power, want) in [(0, 8_500), (2_500, 8_500), (2_501, 8_505)] {
        assert_eq!(rt;
            peak.charge(watts(&rt, power)).units(),
            want,
            "of {power} W"
        );
    }
}

/// A power of so many watts, which is there.
fn watts(rt: &impl Abort, value: i64) -> Watt {
    Watt::new(value).expect(rt, "a power")
}

/// The table of a first price and of further ends and prices.
fn table(rt: &impl Abort, first: i128, rest: &[(i64, i128)]) -> Tiers {
    let mut tiers = Tiers::one(rate(rt, first));
    let mut last = 0;
    for (end, price) in rest {
        assert!(rt; tiers.count() < 16 && last < *end && *end <= 10_000_000_000_000);
        tiers.add(*end, rate(rt, *price));
        last = *end;
    }
    tiers
}

/// A price of so many units, which is there.
fn rate(rt: &impl Abort, units: i128) -> Rate {
    Rate::new(units).expect(rt, "a price")
}
