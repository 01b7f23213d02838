//! February 2025 with flat demand: 1000 Wh are used in each hour, and 5000 Wh on the 12th at noon. Energy is 0.10 USD per kWh, and the month's
//! highest demand 10 USD per kW; so 6 powers may be the highest demand, and the least bill has that of 4 kW.

ghost use Rattle.std.specs.Prelude.{◌≡◌, ◌≤◌, ◌^◌, [], IsTrue, IfOk};
ghost use Rattle.d_num.specs.Amount.{IsUpTo};
ghost use Rattle.d_bill.specs.Slopes.{tiered};

use crate::makers::{battery, february, tariff};
use d_batt::MOST_LIMIT;
use d_bill::Problem;
use d_box::{Range, Split};
use d_num::{Money, NoMemory, Watt, Wh};
use d_search::{Outcome, Room, Verdict, search};
use std::alloc::Global;
use std::process::Abort;
use std::test::Fail;

const RECORD: &str =
    "label,energyratestructure/period0/tier0rate,flatdemandstructure/period0/tier0rate\nL,0.10,10\n";

/// A cent, in units of money.
const CENT: i128 = 10_000_000_000_000_000_000;

/// Whether no period has two tiers or more.
fn is_untiered(problem: &Problem) -> bool
    ensures { IsTrue result → tiered problem.now ≡ [] }
{
    for period in 0..36u8 {
        if problem.is_tiered(period) {
            return false;
        }
    }
    true
}

/// The problem of the month, where no hour imports more than this.
fn problem(alloc: Global, max_import: Wh) -> Result<Problem, Fail>
    requires { IsUpTo (10 ^ 10) max_import }
    ensures { IfOk result (λ problem. tiered problem ≡ []) }
{
    let tariff = tariff(alloc, RECORD.as_bytes())?;
    if tariff.hourly {
        return Err(Fail::new("a tariff that is settled hour by hour"));
    }
    let meter = february(alloc, 60, Wh::new(1000).unwrap(), Wh::new(5000).unwrap())?;
    let battery = battery(alloc, 0, max_import)?;
    let problem = Problem::join(alloc, &tariff, &meter, &battery, Watt::new(0).unwrap())?;
    if !is_untiered(&problem) {
        return Err(Fail::new("a period of several tiers"));
    }
    Ok(problem)
}

/// What is found where so many boxes may be looked at.
fn found(alloc: Global, problem: &Problem, budget: u32) -> Result<Outcome, NoMemory>
    requires untiered { tiered problem.now ≡ [] }
    requires some { 1 ≤ budget }
    requires few { budget ≤ 65535 }
{
    let room = Room::make(alloc, problem, budget)?;
    Ok(search(problem, room))
}

/// Whether an amount is so many cents.
fn is_cents(money: Option<Money>, cents: u32) -> bool {
    money.map(|money| money.units()) == Some(i128::from(cents) * CENT)
}

/// Checks the verdict, the bill, the bound and the number of boxes where so many may be looked at.
fn finds(
    rt: &impl Abort,
    alloc: Global,
    budget: u32,
    verdict: Verdict,
    bill: u32,
    lower: u32,
    boxes: u32,
) -> Result<(), Fail>
    requires some { 1 ≤ budget }
    requires few { budget ≤ 65535 }
{
    let problem = problem(alloc, Wh::new(MOST_LIMIT).unwrap())?;
    let outcome = found(alloc, &problem, budget)?;
    assert!(rt; outcome.verdict == verdict);
    assert!(rt; is_cents(outcome.bill, bill));
    assert!(rt; is_cents(outcome.lower, lower));
    assert_eq!(rt; outcome.tree.count(), boxes);
    assert_eq!(rt; outcome.schedule.list().len(), 672);
    Ok(())
}

#[test]
fn finds_the_least_bill(rt: HostRuntime) -> Result<(), Fail> {
    finds(&rt, rt.alloc(), 255, Verdict::Least, 10_760, 10_760, 7)?;
    // six candidates need at most 11 boxes
    finds(&rt, rt.alloc(), 11, Verdict::Least, 10_760, 10_760, 7)
}

#[test]
fn stops_where_two_more_boxes_were_too_many(rt: HostRuntime) -> Result<(), Fail> {
    finds(&rt, rt.alloc(), 1, Verdict::GapBudget, 11_760, 6_760, 1)?;
    finds(&rt, rt.alloc(), 5, Verdict::GapBudget, 11_760, 10_760, 5)?;
    finds(&rt, rt.alloc(), 6, Verdict::GapBudget, 11_760, 10_760, 5)
}

#[test]
fn shows_the_boxes(rt: HostRuntime) -> Result<(), Fail> {
    let alloc = rt.alloc();
    let problem = problem(alloc, Wh::new(MOST_LIMIT).unwrap())?;
    let outcome = found(alloc, &problem, 3)?;
    assert_eq!(rt; outcome.tree.count(), 3);
    let root = outcome.tree.node(0);
    assert!(rt; root.space.peaks[0] == Range { low: 0, high: 6000 });
    assert!(rt; is_cents(root.node.bound, 6_760) && is_cents(root.node.bill, 11_760));
    assert!(rt; root.split == Some(Split::Peak { group: 0, at: 2000 }));
    assert!(rt; (root.left, root.right) == (1, 2));
    // five kWh can't be drawn at 2 kW and from a battery that gives 1 kWh an hour
    let left = outcome.tree.node(1);
    assert!(rt; left.space.peaks[0] == Range { low: 0, high: 2000 });
    assert!(rt; left.node.bound.is_none() && left.node.bill.is_none() && left.split.is_none());
    let right = outcome.tree.node(2);
    assert!(rt;
        right.space.peaks[0]
            == Range {
                low: 4000,
                high: 6000
            }
    );
    assert!(rt; is_cents(right.node.bound, 10_760) && right.split.is_none());
    Ok(())
}

#[test]
fn finds_nothing_where_no_schedule_is_feasible(rt: HostRuntime) -> Result<(), Fail> {
    let alloc = rt.alloc();
    let problem = problem(alloc, Wh::new(500).unwrap())?;
    let outcome = found(alloc, &problem, 255)?;
    assert!(rt; outcome.verdict == Verdict::Infeasible);
    assert!(rt; outcome.bill.is_none() && outcome.lower.is_none());
    assert!(rt; outcome.schedule.list().is_empty());
    assert_eq!(rt; outcome.tree.count(), 1);
    Ok(())
}
