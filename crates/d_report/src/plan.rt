//! The text of a plan.

ghost use Rattle.std.specs.Prelude.{◌≡◌, pos, ◌+ℤ◌, ◌∷◌, ◌++◌, ◌<◌, length, IfOk, OnOk, string_bytes};
ghost use Rattle.std.specs.Fmt.{decimal, signed_decimal};
ghost use Rattle.d_num.specs.Amount.{IsUpTo};
ghost use Rattle.d_bill.specs.Flows.{flow_of};
ghost use Rattle.d_bill.specs.Schedules.{IsFeasible};
ghost use Rattle.d_bill.specs.Totals.{IsTallied, tally_of};
ghost use Rattle.d_bill.specs.Bills.{metered_bill};
ghost use Rattle.d_report.specs.Plans as spec;

use crate::charges::put_bill;
use crate::finding::{Finding, Found};
use crate::lines::{put_line, put_line_end, put_money, put_number, put_title};
use d_batt::Mode;
use d_bill::{Problem, Tally};
use d_cal::start_text;
use d_num::{Money, NoMemory};
use std::alloc::{AllocError, Global};

/// The text of a plan by a feasible schedule: what is answered, what is known of its bill, what it costs and what the readings alone do,
/// the lines of its bill, and a line for each interval.
pub fn plan_text(
    alloc: Global,
    label: &str,
    problem: &Problem,
    schedule: &[u8],
    finding: &Finding,
) -> Result<Vec<u8>, NoMemory>
    requires { IsFeasible problem.now schedule.now }
    ensures { IfOk result (λ text. text.items ≡ spec.plan_text problem.now label.now schedule.now finding.now) }
{
    let tally = tally_of(problem, schedule);
    let mut text = Vec::new(alloc);
    put_title(alloc, &mut text, "plan", label, problem)?;
    put_verdict(
        &mut text,
        problem.bill(&tally),
        metered_bill(problem),
        finding,
    )?;
    put_bill(&mut text, problem, &tally)?;
    put_schedule(alloc, &mut text, problem, schedule)?;
    Ok(text)
}

/// The tally of a feasible schedule.
fn tally_of(problem: &Problem, schedule: &[u8]) -> Tally
    requires { IsFeasible problem.now schedule.now }
    ensures value { result ≡ tally_of problem.now schedule.now }
    ensures tallied { IsTallied problem.now result }
{
    let mut tally = Tally::new();
    match problem.walk(schedule, &mut tally) {
        Ok(()) => tally,
        Err(_) => unreachable!(),
    }
}

/// The bill of the readings alone.
fn metered_bill(problem: &Problem) -> Money
    ensures { result ≡ metered_bill problem.now }
{
    let mut tally = Tally::new();
    problem.metered(&mut tally);
    problem.bill(&tally)
}

/// Adds the lines of a plan before those of its bill.
fn put_verdict(
    text: &mut Vec<u8>,
    bill: Money,
    metered: Money,
    finding: &Finding,
) -> Result<(), NoMemory>
    ensures { OnOk result (text.new.items ≡ text.old.items ++ spec.verdict_lines bill metered finding.now) }
{
    put_found(text, finding.found)?;
    put_money(text, "bill ", bill)?;
    put_lower(text, finding.found, finding.lower)?;
    put_money(text, "metered ", metered)?;
    put_boxes(text, finding.boxes)
}

/// Adds the line that says whether the bill is the least.
fn put_found(text: &mut Vec<u8>, found: Found) -> Result<(), NoMemory>
    ensures { OnOk result (text.new.items ≡ text.old.items ++ spec.found_line found) }
{
    match found {
        Found::Least => put_line(text, "verdict least", ""),
        Found::GapBudget => put_line(text, "verdict gap budget", ""),
        Found::GapDuality => put_line(text, "verdict gap duality", ""),
    }
}

/// Adds the line of the bill below which no schedule comes, where the plan's bill may not be the least.
fn put_lower(text: &mut Vec<u8>, found: Found, lower: Option<Money>) -> Result<(), NoMemory>
    ensures { OnOk result (text.new.items ≡ text.old.items ++ spec.lower_line found lower) }
{
    match found {
        Found::Least => Ok(()),
        Found::GapBudget => put_bound(text, lower),
        Found::GapDuality => put_bound(text, lower),
    }
}

/// Adds the line of the bill below which no schedule comes, where it is known.
fn put_bound(text: &mut Vec<u8>, lower: Option<Money>) -> Result<(), NoMemory>
    ensures { OnOk result (text.new.items ≡ text.old.items ++ spec.bound_line lower) }
{
    match lower {
        Some(lower) => put_money(text, "lower ", lower),
        None => Ok(()),
    }
}

/// Adds the line of the number of boxes.
fn put_boxes(text: &mut Vec<u8>, boxes: u32) -> Result<(), NoMemory>
    ensures { OnOk result (text.new.items ≡ text.old.items ++ spec.boxes_line boxes) }
{
    put_number(text, "boxes ", i128::from(boxes))?;
    put_line_end(text)
}

/// The lines of a schedule, one an interval.
fn put_schedule(
    alloc: Global,
    text: &mut Vec<u8>,
    problem: &Problem,
    schedule: &[u8],
) -> Result<(), NoMemory>
    requires { IsFeasible problem.now schedule.now }
    ensures { OnOk result (text.new.items ≡ text.old.items ++ spec.schedule_lines problem.now schedule.now) }
{
    let modes = problem.battery().modes.as_slice();
    let mut level = problem.battery().start;
    for t in 0..problem.intervals() {
        let mode = &modes[schedule[t as usize] as usize];
        level = level_after(level, mode);
        put_interval(alloc, text, problem, t, mode, level)?;
    }
    Ok(())
}

/// The level after a mode that begins at a level.
fn level_after(level: u8, mode: &Mode) -> u8
    requires { IsUpTo 255 (pos level +ℤ mode.now.change) }
    ensures { pos result ≡ pos level +ℤ mode.now.change }
{
    (level as i16 + mode.change) as u8
}

/// The line of an interval: its start, the mode's name, the level after it and what flows through the meter in Wh.
fn put_interval(
    alloc: Global,
    text: &mut Vec<u8>,
    problem: &Problem,
    t: u32,
    mode: &Mode,
    level: u8,
) -> Result<(), NoMemory>
    requires { t < length problem.now.net }
    ensures { OnOk result (text.new.items ≡ text.old.items ++ spec.level_line problem.now t mode.now (pos level)) }
{
    // shows the ranges of the inputs
    let _count = problem.intervals();
    let start = start_text(problem.month(), problem.minutes(), t);
    let numbers = two_numbers(alloc, level, flow(problem, t, mode))?;
    text.extend_from_slice(&start)?;
    text.push(b' ')?;
    text.extend_from_slice(mode.name.bytes())?;
    put_line(text, " ", numbers.as_str())
}

/// What flows through the meter in an interval, in Wh.
fn flow(problem: &Problem, t: u32, mode: &Mode) -> i64
    requires { t < length problem.now.net }
    ensures { result ≡ flow_of problem.now t mode.now }
{
    problem.interval(t).net.value() + mode.grid.value()
}

/// Two numbers with a space between them.
fn two_numbers(alloc: Global, first: u8, second: i64) -> Result<String, AllocError>
    ensures { IfOk result (λ text. string_bytes text ≡ decimal first ++ 32 ∷ signed_decimal second) }
{
    format!(in alloc; "{first} {second}")
}
