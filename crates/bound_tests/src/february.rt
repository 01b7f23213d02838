//! February 2025, whose first day is a Saturday: 1000 Wh an hour, at 0.30 USD per kWh in the hours 16 to 19 of weekdays and at 0.10 in all
//! others.

ghost use Rattle.std.specs.Prelude.{◌≡◌, [], ◌≤◌, ◌^◌, IfOk};
ghost use Rattle.d_bill.specs.Slopes.{tiered};
ghost use Rattle.d_num.specs.Amount.{IsUpTo};

use crate::demand::{joined, root_of};
use crate::makers::{battery, february};
use d_bill::Problem;
use d_bound::Bounder;
use d_num::Wh;
use std::alloc::Global;
use std::test::Fail;

const RECORD: &str =
    "label,energyratestructure/period0/tier0rate,energyratestructure/period1/tier0rate,energyweekdayschedule\n\
    L,0.10,0.30,\"[\
    [0,0,0,0,0,0,0,0,0,0,0,0,0,0,0,0,1,1,1,1,0,0,0,0],\
    [0,0,0,0,0,0,0,0,0,0,0,0,0,0,0,0,1,1,1,1,0,0,0,0],\
    [0,0,0,0,0,0,0,0,0,0,0,0,0,0,0,0,1,1,1,1,0,0,0,0],\
    [0,0,0,0,0,0,0,0,0,0,0,0,0,0,0,0,1,1,1,1,0,0,0,0],\
    [0,0,0,0,0,0,0,0,0,0,0,0,0,0,0,0,1,1,1,1,0,0,0,0],\
    [0,0,0,0,0,0,0,0,0,0,0,0,0,0,0,0,1,1,1,1,0,0,0,0],\
    [0,0,0,0,0,0,0,0,0,0,0,0,0,0,0,0,1,1,1,1,0,0,0,0],\
    [0,0,0,0,0,0,0,0,0,0,0,0,0,0,0,0,1,1,1,1,0,0,0,0],\
    [0,0,0,0,0,0,0,0,0,0,0,0,0,0,0,0,1,1,1,1,0,0,0,0],\
    [0,0,0,0,0,0,0,0,0,0,0,0,0,0,0,0,1,1,1,1,0,0,0,0],\
    [0,0,0,0,0,0,0,0,0,0,0,0,0,0,0,0,1,1,1,1,0,0,0,0],\
    [0,0,0,0,0,0,0,0,0,0,0,0,0,0,0,0,1,1,1,1,0,0,0,0]\
    ]\"\n";

/// The problem of the month, where the battery ends at that level at least and no hour imports more than this.
fn problem(alloc: Global, end: u8, max_import: Wh) -> Result<Problem, Fail>
    requires end { end ≤ 4 }
    requires import { IsUpTo (10 ^ 10) max_import }
    ensures { IfOk result (λ problem. tiered problem ≡ []) }
{
    let hourly = Wh::new(1000).unwrap();
    let meter = february(alloc, 60, hourly, hourly)?;
    let battery = battery(alloc, end, max_import)?;
    joined(alloc, RECORD, &meter, &battery)
}

#[test]
fn charges_before_the_dear_hours(rt: HostRuntime) -> Result<(), Fail> {
    let alloc = rt.alloc();
    let problem = problem(alloc, 0, Wh::new(2000).unwrap())?;
    let mut bounder = Bounder::make(alloc, &problem)?;
    let root = root_of(&problem, &bounder);
    let mut schedule = vec![in alloc; 0u8; problem.intervals() as usize]?;
    let node = bounder.node(&problem, &root, None, schedule.as_mut_slice());
    // 83.20 by the readings; on each of 20 weekdays 4 kWh are bought at 0.10 in place of 0.30
    let least = Some(67_200_000_000_000_000_000_000);
    assert!(rt; node.bound.map(|bound| bound.units()) == least);
    assert!(rt; node.bill.map(|bill| bill.units()) == least);
    Ok(())
}

#[test]
fn finds_none_where_the_end_level_is_out_of_reach(rt: HostRuntime) -> Result<(), Fail> {
    let alloc = rt.alloc();
    let problem = problem(alloc, 1, Wh::new(1999).unwrap())?;
    let mut bounder = Bounder::make(alloc, &problem)?;
    let root = root_of(&problem, &bounder);
    let mut schedule = vec![in alloc; 0u8; problem.intervals() as usize]?;
    let node = bounder.node(&problem, &root, None, schedule.as_mut_slice());
    assert!(rt; node.bound.is_none() && node.bill.is_none());
    Ok(())
}
