//! February 2025 with flat demand: as much is used in each interval as a step of the battery's level, and five times as much in the one that
//! begins on the 12th at noon. Energy is 0.10 USD per kWh, and the month's highest demand 10 USD per kW.

ghost use Rattle.std.specs.Prelude.{◌≡◌, [], IfSome, IfOk};
ghost use Rattle.d_bill.specs.Slopes.{tiered};
ghost use Rattle.d_bound.specs.Bounders.{IsBounderOf};
ghost use Rattle.d_bound.specs.Roots.{IsProblemBox};

use crate::makers::{battery, february, quarter_battery, tariff};
use d_batt::{Battery, MOST_LIMIT};
use d_bill::Problem;
use d_bound::{Bounder, Node, halves_are_boxes, roots_are_boxes};
use d_box::{Range, Slopes, Space, Split, halves, split_of, splits_are_cuts};
use d_meter::Meter;
use d_num::{Money, Pot, Rate, Watt, Wh};
use std::alloc::Global;
use std::process::Abort;
use std::test::Fail;

const RECORD: &str =
    "label,energyratestructure/period0/tier0rate,flatdemandstructure/period0/tier0rate\nL,0.10,10\n";

/// A cent, in units of money.
const CENT: i128 = 10_000_000_000_000_000_000;

/// The problem of a month and a battery, by the record with label L.
pub fn joined(
    alloc: Global,
    records: &str,
    meter: &Meter,
    battery: &Battery,
) -> Result<Problem, Fail>
    ensures { IfOk result (λ problem. tiered problem ≡ []) }
{
    let tariff = tariff(alloc, records.as_bytes())?;
    if tariff.hourly {
        return Err(Fail::new("a tariff that is settled hour by hour"));
    }
    let problem = Problem::join(alloc, &tariff, meter, battery, Watt::new(0).unwrap())?;
    if !problem.is_untiered() {
        return Err(Fail::new("a period of several tiers"));
    }
    Ok(problem)
}

/// The problem of the month by the hour, with 1000 Wh an hour and a battery of 1000 Wh a level.
fn hourly_problem(alloc: Global) -> Result<Problem, Fail>
    ensures { IfOk result (λ problem. tiered problem ≡ []) }
{
    let meter = february(alloc, 60, Wh::new(1000).unwrap(), Wh::new(5000).unwrap())?;
    let battery = battery(alloc, 0, Wh::new(MOST_LIMIT).unwrap())?;
    joined(alloc, RECORD, &meter, &battery)
}

/// The problem of the month by quarter hours, with 250 Wh in each and a battery of 250 Wh a level.
fn quarter_problem(alloc: Global) -> Result<Problem, Fail>
    ensures { IfOk result (λ problem. tiered problem ≡ []) }
{
    let meter = february(alloc, 15, Wh::new(250).unwrap(), Wh::new(1250).unwrap())?;
    let battery = quarter_battery(alloc, Wh::new(MOST_LIMIT).unwrap())?;
    joined(alloc, RECORD, &meter, &battery)
}

/// The box of all schedules.
pub fn root_of(problem: &Problem, bounder: &Bounder) -> Space
    requires untiered { tiered problem.now ≡ [] }
    requires bounder { IsBounderOf problem.now bounder.now }
    ensures { IsProblemBox bounder.now.candidates result }
{
    roots_are_boxes();
    bounder.root(problem)
}

/// Where the peak of a box is split, and its halves.
#[derive(Drop)]
struct Halves {
    at: i64,
    left: Space,
    right: Space,
}

/// The halves of a box that is split at a peak.
fn halves_of(problem: &Problem, bounder: &Bounder, space: &Space) -> Option<Halves>
    requires untiered { tiered problem.now ≡ [] }
    requires bounder { IsBounderOf problem.now bounder.now }
    requires boxed { IsProblemBox bounder.now.candidates space.now }
    ensures left { IfSome result (λ both. IsProblemBox bounder.now.candidates both.left) }
    ensures right { IfSome result (λ both. IsProblemBox bounder.now.candidates both.right) }
{
    splits_are_cuts();
    halves_are_boxes();
    let candidates = bounder.candidates();
    let Some(Split::Peak { group, at }) = split_of(space, &[], problem.groups(), candidates) else {
        return None;
    };
    let above = candidates.next_above(group, at);
    let mut left = *space;
    let mut right = *space;
    halves(
        space,
        Split::Peak { group, at },
        at,
        above,
        &mut left,
        &mut right,
    );
    Some(Halves { at, left, right })
}

/// Whether an amount is so many cents, or neither is there.
fn is_cents(money: Option<Money>, cents: Option<u32>) -> bool {
    money.map(|money| money.units()) == cents.map(|cents| i128::from(cents) * CENT)
}

/// Whether a node has this bound and this bill, in cents.
fn has(node: &Node, bound: Option<u32>, bill: Option<u32>) -> bool {
    is_cents(node.bound, bound) && is_cents(node.bill, bill)
}

/// Bounds the box of all schedules and both its halves, where the energy of the month's readings costs so many cents.
fn bounds_boxes(rt: &impl Abort, alloc: Global, problem: &Problem, energy: u16) -> Result<(), Fail>
    requires { tiered problem.now ≡ [] }
{
    let energy = u32::from(energy);
    let mut bounder = Bounder::make(alloc, problem)?;
    assert_eq!(rt; bounder.candidates().count(), 1);
    assert!(rt; bounder.candidates().list(0) == [0, 1000, 2000, 4000, 5000, 6000].as_slice());
    assert_eq!(rt; bounder.candidates().next_above(0, 2000), 4000);
    let root = root_of(problem, &bounder);
    assert_eq!(rt; root.peaks[0], Range { low: 0, high: 6000 });
    let Some(both) = halves_of(problem, &bounder, &root) else {
        return Err(Fail::new("a box that isn't split"));
    };
    assert_eq!(rt; both.at, 2000);
    let mut schedule = vec![in alloc; 9u8; problem.intervals() as usize]?;
    let node = bounder.node(problem, &both.left, None, schedule.as_mut_slice());
    assert!(rt; has(&node, None, None));
    assert!(rt; schedule.iter().all(|mode| *mode == 9));
    let node = bounder.node(problem, &root, None, schedule.as_mut_slice());
    // the readings' highest demand is 5 kW
    assert!(rt; has(&node, Some(energy), Some(energy + 5000)));
    assert!(rt; schedule.iter().all(|mode| *mode == 0));
    let node = bounder.node(
        problem,
        &both.right,
        Some(&node.slopes),
        schedule.as_mut_slice(),
    );
    // the right half begins at 4 kW
    assert!(rt; has(&node, Some(energy + 4000), Some(energy + 5000)));
    Ok(())
}

#[test]
fn bounds_the_boxes_of_an_hourly_month(rt: HostRuntime) -> Result<(), Fail> {
    let problem = hourly_problem(rt.alloc())?;
    // 671 kWh and 5 kWh at 0.10
    bounds_boxes(&rt, rt.alloc(), &problem, 6760)
}

#[test]
fn bounds_the_boxes_of_a_month_of_quarter_hours(rt: HostRuntime) -> Result<(), Fail> {
    let problem = quarter_problem(rt.alloc())?;
    // 671.75 kWh and 1.25 kWh at 0.10
    bounds_boxes(&rt, rt.alloc(), &problem, 6730)
}

#[test]
fn layers_have_the_least_costs(rt: HostRuntime) -> Result<(), Fail> {
    let alloc = rt.alloc();
    let problem = hourly_problem(alloc)?;
    let mut bounder = Bounder::make(alloc, &problem)?;
    let root = root_of(&problem, &bounder);
    let slopes = Slopes {
        rates: [Rate::new(0).unwrap(); 36],
    };
    bounder.fill(&problem, &root, &slopes);
    let end = problem.intervals();
    bounder.turn_to(end);
    let last = bounder.layer(end);
    assert!(rt;
        last.len() == 5
            && last
                .iter()
                .all(|cost| cost.get() == Pot::To(Money::new(0).unwrap()))
    );
    bounder.turn_to(0);
    let first = bounder.layer(0);
    assert!(rt; first.len() == 5);
    assert!(rt; first[0].get() == Pot::To(Money::new(6760 * CENT).unwrap()));
    // four levels more at the start save 4 kWh
    assert!(rt; first[4].get() == Pot::To(Money::new(6720 * CENT).unwrap()));
    Ok(())
}
