//! The plan of a month.

ghost use Rattle.std.specs.Prelude.{◌≡◌, ◌≤◌, [], codes, IfOk};
ghost use Rattle.d_bill.specs.Slopes.{tiered};
ghost use Rattle.d_bill.specs.Schedules.{IsFeasible};
ghost use Rattle.d_tariff.specs.Shown.{terms_of};
ghost use Rattle.d_meter.specs.Shown.{metered_of};
ghost use Rattle.d_batt.specs.Shown.{storage_of};
ghost use Rattle.d_bill.specs.Join.{IsSettled};
ghost use Rattle.d_report.specs.Lines.{line};
ghost use Rattle.d_report.specs.Plans as spec;
ghost use Rattle.d_run.specs.Answer.{IsPlanned, IsPlanFor, finding, no_storage};
ghost use Rattle.d_run.specs.Replies.{IsReply, Shows, problem_of};
ghost use Rattle.d_run.specs.Prepared.{IsCaused, Prepares, Plans, PlansMonth};

use crate::budget::{budget_of, search_size};
use crate::fault::{Fault, Refusal};
use crate::load::load_battery;
use crate::month::{check_plannable, join_month};
use crate::reply::Reply;
use crate::verdict::Verdict;
use d_batt::Battery;
use d_bill::Problem;
use d_desk::Desk;
use d_meter::Meter;
use d_num::NoMemory;
use d_report::{Finding, Found, line_text, plan_text};
use d_search::{Outcome, PRODUCT_LIMIT, Room, search};
use d_tariff::Tariff;
use d_words::{Budget, Request};
use std::alloc::Global;

/// Prepares the plan with the battery of this file and the budget that the words give, where the month is one that is planned.
pub fn answer_plan<D: Desk>(
    alloc: Global,
    desk: &mut D,
    request: &Request<'_>,
    battery: &str,
    budget: Option<Budget>,
    tariff: &Tariff,
    meter: &Meter,
) -> Result<Reply, Fault>
    requires { IsSettled (terms_of tariff.now) (metered_of meter.now) }
    ensures told { D.tells → Prepares (PlansMonth battery.now budget request.now.label.now (problem_of tariff.now meter.now request.now.prior_peak))
        (D.scene desk.old) (D.scene desk.new) result }
    ensures cause { IsCaused (D.faults desk.old) (D.faults desk.new) result }
{
    check_plannable(alloc, request, tariff, meter)?;
    plan_with_battery(alloc, desk, request, battery, budget, tariff, meter)
}

/// Prepares the plan with the battery of this file.
fn plan_with_battery<D: Desk>(
    alloc: Global,
    desk: &mut D,
    request: &Request<'_>,
    battery: &str,
    budget: Option<Budget>,
    tariff: &Tariff,
    meter: &Meter,
) -> Result<Reply, Fault>
    requires settled { IsSettled (terms_of tariff.now) (metered_of meter.now) }
    requires untiered { tiered (problem_of tariff.now meter.now request.now.prior_peak no_storage) ≡ [] }
    ensures told { D.tells → Prepares (Plans battery.now budget request.now.label.now (problem_of tariff.now meter.now request.now.prior_peak))
        (D.scene desk.old) (D.scene desk.new) result }
    ensures cause { IsCaused (D.faults desk.old) (D.faults desk.new) result }
{
    let battery = load_battery(alloc, desk, battery)?;
    Ok(plan(alloc, request, budget, tariff, meter, &battery)?)
}

/// The plan of the month with this battery.
fn plan(
    alloc: Global,
    request: &Request<'_>,
    budget: Option<Budget>,
    tariff: &Tariff,
    meter: &Meter,
    battery: &Battery,
) -> Result<Reply, NoMemory>
    requires settled { IsSettled (terms_of tariff.now) (metered_of meter.now) }
    requires untiered { tiered (problem_of tariff.now meter.now request.now.prior_peak no_storage) ≡ [] }
    ensures { IfOk result
        (IsReply (IsPlanFor (problem_of tariff.now meter.now request.now.prior_peak (storage_of battery.now)) budget request.now.label.now)) }
{
    let problem = join_month(alloc, request, tariff, meter, battery)?;
    plan_problem(alloc, request.label, &problem, budget)
}

/// The plan of a problem in which no period is tiered, with the budget that the words give, or that its search is too large.
fn plan_problem(
    alloc: Global,
    label: &str,
    problem: &Problem,
    given: Option<Budget>,
) -> Result<Reply, NoMemory>
    requires { tiered problem.now ≡ [] }
    ensures { IfOk result (IsReply (IsPlanFor problem.now given label.now)) }
{
    let budget = budget_of(problem, given);
    let size = search_size(problem, budget);
    if size > PRODUCT_LIMIT {
        Refusal::Product(size).reply(alloc)
    } else {
        searched_plan(alloc, label, problem, budget)
    }
}

/// The plan that a search finds which may make so many boxes, or that no schedule is feasible.
fn searched_plan(
    alloc: Global,
    label: &str,
    problem: &Problem,
    budget: u32,
) -> Result<Reply, NoMemory>
    requires untiered { tiered problem.now ≡ [] }
    requires some { 1 ≤ budget }
    requires few { budget ≤ 65535 }
    ensures { IfOk result (IsReply (IsPlanned problem.now budget label.now)) }
{
    // shows the ranges of the problem
    let _count = problem.intervals();
    let room = Room::make(alloc, problem, budget)?;
    let outcome = search(problem, room);
    match outcome.verdict {
        d_search::Verdict::Least => least_reply(alloc, label, problem, &outcome),
        d_search::Verdict::GapBudget => {
            gap_reply(alloc, label, problem, &outcome, Found::GapBudget)
        }
        d_search::Verdict::GapDuality => {
            gap_reply(alloc, label, problem, &outcome, Found::GapDuality)
        }
        d_search::Verdict::Infeasible => no_plan_reply(alloc),
    }
}

/// The reply that shows the schedule of an outcome as one with the least bill.
fn least_reply(
    alloc: Global,
    label: &str,
    problem: &Problem,
    outcome: &Outcome,
) -> Result<Reply, NoMemory>
    requires { IsFeasible problem.now outcome.now.schedule }
    ensures { IfOk result
        (Shows Verdict.Done (spec.plan_text problem.now label.now outcome.now.schedule (finding Found.Least outcome.now))) }
{
    let text = outcome_text(alloc, label, problem, outcome, Found::Least)?;
    Ok(Reply {
        verdict: Verdict::Done,
        text,
    })
}

/// The reply that shows the schedule of an outcome, and why a smaller bill may be possible.
fn gap_reply(
    alloc: Global,
    label: &str,
    problem: &Problem,
    outcome: &Outcome,
    gap: Found,
) -> Result<Reply, NoMemory>
    requires { IsFeasible problem.now outcome.now.schedule }
    ensures { IfOk result (Shows Verdict.Gap (spec.plan_text problem.now label.now outcome.now.schedule (finding gap outcome.now))) }
{
    let text = outcome_text(alloc, label, problem, outcome, gap)?;
    Ok(Reply {
        verdict: Verdict::Gap,
        text,
    })
}

/// The text of the schedule of an outcome, with what is known of its bill.
fn outcome_text(
    alloc: Global,
    label: &str,
    problem: &Problem,
    outcome: &Outcome,
    found: Found,
) -> Result<Vec<u8>, NoMemory>
    requires { IsFeasible problem.now outcome.now.schedule }
    ensures { IfOk result (λ text. text.items ≡ spec.plan_text problem.now label.now outcome.now.schedule (finding found outcome.now)) }
{
    let finding = Finding {
        found,
        lower: outcome.lower,
        boxes: outcome.tree.count(),
    };
    plan_text(alloc, label, problem, outcome.schedule.list(), &finding)
}

/// The reply that says that no schedule is feasible.
fn no_plan_reply(alloc: Global) -> Result<Reply, NoMemory>
    ensures { IfOk result (Shows Verdict.NoSchedule (line (codes "no schedule"))) }
{
    let text = line_text(alloc, "no schedule", "")?;
    Ok(Reply {
        verdict: Verdict::NoSchedule,
        text,
    })
}
