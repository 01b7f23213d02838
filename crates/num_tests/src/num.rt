//! Numbers at the ends of their ranges, and what is made of them.

use d_num::{Money, Pot, Rate, Watt, Wh};

#[test]
fn numbers_end_at_their_limits(rt: HostRuntime) {
    let money = 10_000_000_000_000_000_000_000_000_000_000_000_000i128;
    assert_eq!(rt; Money::new(money).map(|m| m.units()), Some(money));
    assert!(rt; Money::new(money + 1).is_none());
    let rate = 10_000_000_000_000_000_000_000i128;
    assert_eq!(rt; Rate::new(-rate).map(|r| r.units()), Some(-rate));
    assert!(rt; Rate::new(-rate - 1).is_none());
    assert_eq!(rt;
        Wh::new(-20_000_000_000_000).map(|e| e.value()),
        Some(-20_000_000_000_000)
    );
    assert!(rt; Wh::new(20_000_000_000_001).is_none());
    assert_eq!(rt;
        Watt::new(10_000_000_000_000).map(|p| p.value()),
        Some(10_000_000_000_000)
    );
    assert!(rt; Watt::new(-1).is_none());
}

#[test]
fn a_quarter_hour_is_four_times_its_power(rt: HostRuntime) {
    let (Some(energy), Some(price), Some(more)) = (Wh::new(250), Rate::new(100), Rate::new(-1))
    else {
        unreachable!()
    };
    for (minutes, watts) in [(15u8, 1000), (30, 500), (60, 250)] {
        if minutes == 15 || minutes == 30 || minutes == 60 {
            assert_eq!(rt;
                Watt::of(energy, minutes).value(),
                watts,
                "of {minutes} minutes"
            );
        }
    }
    assert_eq!(rt; price.plus(more).times(250).units(), 24750);
}

#[test]
fn no_way_is_dearer_than_every_cost(rt: HostRuntime) {
    let (Some(one), Some(two)) = (Money::new(1), Money::new(2)) else {
        unreachable!()
    };
    assert_eq!(rt;
        one.plus(two).minus(one).least(one).greatest(two).units(),
        2
    );
    assert!(rt; Pot::NoWay.least(Pot::To(one)) == Pot::To(one));
    assert!(rt; Pot::To(one).plus(one) == Pot::To(two));
    assert!(rt; Pot::To(two).at_most(Pot::NoWay) && !Pot::NoWay.at_most(Pot::To(two)));
}
