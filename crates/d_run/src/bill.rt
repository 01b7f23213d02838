//! The bill of the readings alone, and of a schedule.

ghost use Rattle.std.specs.Prelude.{◌≡◌, ℕ, length, IfOk};
ghost use Rattle.d_tariff.specs.Shown.{terms_of};
ghost use Rattle.d_meter.specs.Shown.{metered_of};
ghost use Rattle.d_bill.specs.Join.{IsSettled};
ghost use Rattle.d_bill.specs.Totals.{IsTallied};
ghost use Rattle.d_report.specs.Charges as spec;
ghost use Rattle.d_run.specs.Answer.{IsBilled, IsMeteredBill, no_storage};
ghost use Rattle.d_run.specs.Replies.{IsReply, Shows, problem_of};
ghost use Rattle.d_run.specs.Prepared.{IsCaused, Prepares, Bills, BillsSchedule};
ghost use Rattle.d_run.specs.Text.{break_text};

use crate::fault::Fault;
use crate::load::{load_battery, load_schedule};
use crate::month::{join_month, no_battery};
use crate::reply::Reply;
use crate::verdict::Verdict;
use d_bill::{Problem, Tally};
use d_desk::Desk;
use d_meter::Meter;
use d_num::NoMemory;
use d_report::{bill_text, line_text};
use d_tariff::Tariff;
use d_words::Request;
use std::alloc::Global;

/// The bill of the readings alone, without a battery.
pub fn metered_bill(
    alloc: Global,
    request: &Request<'_>,
    tariff: &Tariff,
    meter: &Meter,
) -> Result<Reply, NoMemory>
    requires { IsSettled (terms_of tariff.now) (metered_of meter.now) }
    ensures { IfOk result (IsReply (IsMeteredBill (problem_of tariff.now meter.now request.now.prior_peak no_storage) request.now.label.now)) }
{
    let battery = no_battery(alloc)?;
    let problem = join_month(alloc, request, tariff, meter, &battery)?;
    let mut tally = Tally::new();
    problem.metered(&mut tally);
    bill_reply(alloc, request.label, &problem, &tally)
}

/// Prepares the bill of a schedule: the battery file comes first.
pub fn answer_bill<D: Desk>(
    alloc: Global,
    desk: &mut D,
    request: &Request<'_>,
    battery: &str,
    schedule: &str,
    tariff: &Tariff,
    meter: &Meter,
) -> Result<Reply, Fault>
    requires { IsSettled (terms_of tariff.now) (metered_of meter.now) }
    ensures told { D.tells → Prepares (Bills battery.now schedule.now request.now.label.now (problem_of tariff.now meter.now request.now.prior_peak))
        (D.scene desk.old) (D.scene desk.new) result }
    ensures cause { IsCaused (D.faults desk.old) (D.faults desk.new) result }
{
    let battery = load_battery(alloc, desk, battery)?;
    let problem = join_month(alloc, request, tariff, meter, &battery)?;
    bill_of_problem(alloc, desk, request.label, schedule, &problem)
}

/// Prepares the bill of the schedule of this file for a problem.
fn bill_of_problem<D: Desk>(
    alloc: Global,
    desk: &mut D,
    label: &str,
    schedule: &str,
    problem: &Problem,
) -> Result<Reply, Fault>
    ensures told { D.tells → Prepares (BillsSchedule schedule.now label.now problem.now) (D.scene desk.old) (D.scene desk.new) result }
    ensures cause { IsCaused (D.faults desk.old) (D.faults desk.new) result }
{
    // shows the ranges of the problem
    let _count = problem.intervals();
    let modes = load_schedule(alloc, desk, schedule, problem)?;
    Ok(schedule_bill(alloc, label, problem, modes.as_slice())?)
}

/// The bill of a schedule, or the first interval in which it breaks a rule.
fn schedule_bill(
    alloc: Global,
    label: &str,
    problem: &Problem,
    schedule: &[u8],
) -> Result<Reply, NoMemory>
    requires { length schedule.now ≡ length problem.now.net }
    ensures { IfOk result (IsReply (IsBilled problem.now label.now schedule.now)) }
{
    let mut tally = Tally::new();
    match problem.walk(schedule, &mut tally) {
        Ok(()) => bill_reply(alloc, label, problem, &tally),
        Err(at) => break_reply(alloc, at.interval),
    }
}

/// The reply that shows the bill of a tally.
fn bill_reply(
    alloc: Global,
    label: &str,
    problem: &Problem,
    tally: &Tally,
) -> Result<Reply, NoMemory>
    requires { IsTallied problem.now tally.now }
    ensures { IfOk result (Shows Verdict.Done (spec.bill_text problem.now label.now tally.now)) }
{
    let text = bill_text(alloc, label, problem, tally)?;
    Ok(Reply {
        verdict: Verdict::Done,
        text,
    })
}

/// The reply that names the first interval in which a schedule breaks a rule.
fn break_reply(alloc: Global, interval: u32) -> Result<Reply, NoMemory>
    ensures { IfOk result (Shows Verdict.NoSchedule (break_text interval)) }
{
    let number = format!(in alloc; "{interval}")?;
    let text = line_text(alloc, "not feasible at interval ", number.as_str())?;
    Ok(Reply {
        verdict: Verdict::NoSchedule,
        text,
    })
}
