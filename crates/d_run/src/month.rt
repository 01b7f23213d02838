//! The problem of a month by a tariff and its readings, and whether such a month is planned yet.

ghost use Rattle.std.specs.Prelude.{◌≡◌, [], IfOk, OnOk, IfErr};
ghost use Rattle.d_bill.specs.Slopes.{tiered};
ghost use Rattle.d_tariff.specs.Shown.{terms_of};
ghost use Rattle.d_meter.specs.Shown.{metered_of};
ghost use Rattle.d_batt.specs.Shown.{storage_of};
ghost use Rattle.d_bill.specs.Join.{IsSettled};
ghost use Rattle.d_run.specs.Answer.{IsPlannable, no_storage};
ghost use Rattle.d_run.specs.Replies.{EndsBy, problem_of};

use crate::fault::{Fault, Refusal};
use d_batt::{Battery, MOST_LIMIT, Mode, ModeList, Name};
use d_bill::Problem;
use d_meter::Meter;
use d_num::{NoMemory, Wh};
use d_tariff::Tariff;
use d_words::Request;
use std::alloc::Global;

/// The problem of a month with this battery, where the request says the highest flat demand of earlier months.
pub fn join_month(
    alloc: Global,
    request: &Request<'_>,
    tariff: &Tariff,
    meter: &Meter,
    battery: &Battery,
) -> Result<Problem, NoMemory>
    requires { IsSettled (terms_of tariff.now) (metered_of meter.now) }
    ensures { IfOk result (λ problem. problem ≡ problem_of tariff.now meter.now request.now.prior_peak (storage_of battery.now)) }
{
    Problem::join(alloc, tariff, meter, battery, request.prior_peak)
}

/// Tests that the month is one that is planned: none of its energy periods is tiered.
pub fn check_plannable(
    alloc: Global,
    request: &Request<'_>,
    tariff: &Tariff,
    meter: &Meter,
) -> Result<(), Fault>
    requires { IsSettled (terms_of tariff.now) (metered_of meter.now) }
    ensures untiered { OnOk result (tiered (problem_of tariff.now meter.now request.now.prior_peak no_storage) ≡ []) }
    ensures refused { IfErr result (EndsBy (IsPlannable (problem_of tariff.now meter.now request.now.prior_peak no_storage) (λ _. ⊥))) }
{
    let battery = no_battery(alloc)?;
    let problem = join_month(alloc, request, tariff, meter, &battery)?;
    check_untiered(alloc, &problem)
}

/// Tests that a problem has no tiered energy period.
fn check_untiered(alloc: Global, problem: &Problem) -> Result<(), Fault>
    ensures untiered { OnOk result (tiered problem.now ≡ []) }
    ensures refused { IfErr result (EndsBy (IsPlannable problem.now (λ _. ⊥))) }
{
    if !problem.is_untiered() {
        return Err(Refusal::TiersNotYet.fault(alloc));
    }
    Ok(())
}

/// No battery: the level 0 alone, and one mode that changes nothing.
pub fn no_battery(alloc: Global) -> Result<Battery, NoMemory>
    ensures { IfOk result (λ battery. storage_of battery ≡ no_storage) }
{
    let mut modes = ModeList::new(alloc);
    modes.add(Mode {
        name: Name::new(b"idle").unwrap(),
        change: 0,
        grid: Wh::new(0).unwrap(),
        low: 0,
        high: 255,
    })?;
    Ok(Battery {
        capacity: 0,
        floor: 0,
        start: 0,
        end: 0,
        max_import: Wh::new(MOST_LIMIT).unwrap(),
        max_export: Wh::new(MOST_LIMIT).unwrap(),
        modes,
    })
}
