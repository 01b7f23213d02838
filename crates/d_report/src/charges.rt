//! The text of a bill, line by line.

ghost use Rattle.std.specs.Prelude.{◌≡◌, ◌++◌, ◌<◌, length, IfOk, OnOk};
ghost use Rattle.d_tariff.specs.Terms.{period_at};
ghost use Rattle.d_bill.specs.Totals.{IsTallied};
ghost use Rattle.d_report.specs.Charges as spec;

use crate::lines::{put_line, put_money, put_number, put_title};
use d_bill::{PERIODS, Problem, Tally};
use d_num::{Money, NoMemory, Watt, Wh};
use std::alloc::Global;

/// The text of the bill of a tally that `walk` or `metered` of this problem wrote: what is answered, the bill, and what it is made of.
pub fn bill_text(
    alloc: Global,
    label: &str,
    problem: &Problem,
    tally: &Tally,
) -> Result<Vec<u8>, NoMemory>
    requires { IsTallied problem.now tally.now }
    ensures { IfOk result (λ text. text.items ≡ spec.bill_text problem.now label.now tally.now) }
{
    let mut text = Vec::new(alloc);
    put_title(alloc, &mut text, "bill", label, problem)?;
    put_money(&mut text, "bill ", problem.bill(tally))?;
    put_bill(&mut text, problem, tally)?;
    Ok(text)
}

/// Adds the lines of a bill: periods, credit, groups, fixed charge, sum and minimum.
pub(crate) fn put_bill(text: &mut Vec<u8>, problem: &Problem, tally: &Tally) -> Result<(), NoMemory>
    requires { IsTallied problem.now tally.now }
    ensures { OnOk result (text.new.items ≡ text.old.items ++ spec.bill_lines problem.now tally.now) }
{
    put_periods(text, problem, tally)?;
    put_money(text, "credit ", tally.credit)?;
    put_groups(text, problem, tally)?;
    put_closing(text, problem, tally)
}

/// Adds a line for each energy period that occurs.
fn put_periods(text: &mut Vec<u8>, problem: &Problem, tally: &Tally) -> Result<(), NoMemory>
    requires { IsTallied problem.now tally.now }
    ensures { OnOk result (text.new.items ≡ text.old.items ++ spec.period_lines problem.now tally.now) }
{
    for period in 0..PERIODS {
        put_period_at(text, problem, tally, period)?;
    }
    Ok(())
}

/// Adds the line of an energy period of a problem, or nothing where it doesn't occur.
fn put_period_at(
    text: &mut Vec<u8>,
    problem: &Problem,
    tally: &Tally,
    period: u8,
) -> Result<(), NoMemory>
    requires tally { IsTallied problem.now tally.now }
    requires period { period < 36 }
    ensures { OnOk result (text.new.items ≡ text.old.items
        ++ spec.period_at_line problem.now tally.now period (period_at problem.now.energy period)) }
{
    match problem.energy(period) {
        Some(_) => {
            let import = tally.totals[usize::from(period)];
            put_period(text, period, import, problem.period_charge(tally, period))
        }
        None => Ok(()),
    }
}

/// Adds the line of an energy period.
fn put_period(text: &mut Vec<u8>, period: u8, import: Wh, charge: Money) -> Result<(), NoMemory>
    ensures { OnOk result (text.new.items ≡ text.old.items ++ spec.period_line period import charge) }
{
    put_number(text, "period ", i128::from(period))?;
    put_number(text, " import ", i128::from(import.value()))?;
    put_money(text, " charge ", charge)
}

/// Adds a line for each group of intervals that is charged for its highest demand.
fn put_groups(text: &mut Vec<u8>, problem: &Problem, tally: &Tally) -> Result<(), NoMemory>
    requires { IsTallied problem.now tally.now }
    ensures { OnOk result (text.new.items ≡ text.old.items ++ spec.group_lines problem.now tally.now) }
{
    for group in 0..problem.groups().len() {
        put_group_at(text, problem, tally, group)?;
    }
    Ok(())
}

/// Adds the line of a group of a problem.
fn put_group_at(
    text: &mut Vec<u8>,
    problem: &Problem,
    tally: &Tally,
    group: usize,
) -> Result<(), NoMemory>
    requires tally { IsTallied problem.now tally.now }
    requires group { group < length problem.now.peaks }
    ensures { OnOk result (text.new.items ≡ text.old.items ++ spec.group_at_line problem.now tally.now group) }
{
    let floor = problem.groups()[group].floor;
    let peak = tally.peaks[group];
    put_front(text, problem.group_period(group as u8), peak, floor)?;
    put_money(text, " charge ", problem.group_charge(tally, group))
}

/// Adds the front of a group's line.
fn put_front(
    text: &mut Vec<u8>,
    period: Option<u8>,
    peak: Watt,
    floor: Watt,
) -> Result<(), NoMemory>
    ensures { OnOk result (text.new.items ≡ text.old.items ++ spec.group_front period peak floor) }
{
    let peak = i128::from(peak.value());
    match period {
        Some(period) => {
            put_number(text, "group ", i128::from(period))?;
            put_number(text, " peak ", peak)
        }
        None => {
            put_number(text, "flat peak ", peak)?;
            put_number(text, " floor ", i128::from(floor.value()))
        }
    }
}

/// Adds the lines of the fixed charge, the sum and the minimum.
fn put_closing(text: &mut Vec<u8>, problem: &Problem, tally: &Tally) -> Result<(), NoMemory>
    requires { IsTallied problem.now tally.now }
    ensures { OnOk result (text.new.items ≡ text.old.items ++ spec.closing_lines problem.now tally.now) }
{
    put_money(text, "fixed ", problem.fixed())?;
    put_money(text, "sum ", problem.sum(tally))?;
    put_minimum(text, problem.minimum())
}

/// Adds the line of a minimum.
fn put_minimum(text: &mut Vec<u8>, minimum: Option<Money>) -> Result<(), NoMemory>
    ensures { OnOk result (text.new.items ≡ text.old.items ++ spec.minimum_line minimum) }
{
    match minimum {
        Some(minimum) => put_money(text, "minimum ", minimum),
        None => put_line(text, "minimum none", ""),
    }
}
