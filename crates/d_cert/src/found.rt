//! The lines of what was found.

ghost use Rattle.std.specs.Prelude.{◌≡◌, ◌<◌, ◌^◌, [], pos, unsigned_abs, unwrap_or, IsTrue, OnOk};
ghost use Rattle.d_desk.specs.Cause.{HasCause};
ghost use Rattle.d_certline.specs.Lines.{text_of};
ghost use Rattle.d_certline.specs.Certificates.{found_lines, day_lines, gap, least};
ghost use Rattle.d_cert.specs.Saved.{SavesText};
ghost use Rattle.d_cert.specs.Written.{month_days, found_of};

use crate::save::{save_day, save_numbers};
use d_bill::Problem;
use d_desk::{Desk, DeskFault};
use d_num::Money;
use d_search::{Outcome, Verdict};

/// Saves the modes of each day, the bill, and the bound where there is a gap; nothing where no schedule is feasible.
pub fn save_found<D: Desk>(
    desk: &mut D,
    line: &mut Vec<u8>,
    problem: &Problem,
    outcome: &Outcome,
) -> Result<(), DeskFault>
    requires output { IsTrue (D.output_open desk.old) }
    requires empty { line.old.items ≡ [] }
    ensures told { D.tells → SavesText (text_of (found_lines (found_of problem.now outcome.now))) (D.scene desk.old) (D.scene desk.new) result }
    ensures empty { OnOk result (line.new.items ≡ []) }
    ensures input { D.input_open desk.new ≡ D.input_open desk.old }
    ensures output { D.output_open desk.new ≡ D.output_open desk.old }
    ensures taken { D.taken desk.new ≡ D.taken desk.old }
    ensures cause { HasCause (D.faults desk.old) (D.faults desk.new) result }
{
    let bill = money_of(outcome.bill);
    let bound = money_of(outcome.lower);
    match outcome.verdict {
        Verdict::Infeasible => Ok(()),
        Verdict::Least => save_plan(desk, line, problem, outcome.schedule.list(), bill),
        Verdict::GapBudget => save_gap(desk, line, problem, outcome.schedule.list(), bill, bound),
        Verdict::GapDuality => save_gap(desk, line, problem, outcome.schedule.list(), bill, bound),
    }
}

/// Saves the modes of each day, the bill and the bound.
fn save_gap<D: Desk>(
    desk: &mut D,
    line: &mut Vec<u8>,
    problem: &Problem,
    modes: &[u8],
    bill: Money,
    bound: Money,
) -> Result<(), DeskFault>
    requires output { IsTrue (D.output_open desk.old) }
    requires empty { line.old.items ≡ [] }
    ensures told { D.tells → SavesText (text_of (found_lines (gap (month_days problem.now modes.now) bill bound))) (D.scene desk.old) (D.scene desk.new) result }
    ensures empty { OnOk result (line.new.items ≡ []) }
    ensures input { D.input_open desk.new ≡ D.input_open desk.old }
    ensures output { D.output_open desk.new ≡ D.output_open desk.old }
    ensures taken { D.taken desk.new ≡ D.taken desk.old }
    ensures cause { HasCause (D.faults desk.old) (D.faults desk.new) result }
{
    save_plan(desk, line, problem, modes, bill)?;
    save_numbers(desk, line, "lower", &[units_of(bound)])
}

/// Saves the modes of each day and the bill.
fn save_plan<D: Desk>(
    desk: &mut D,
    line: &mut Vec<u8>,
    problem: &Problem,
    modes: &[u8],
    bill: Money,
) -> Result<(), DeskFault>
    requires output { IsTrue (D.output_open desk.old) }
    requires empty { line.old.items ≡ [] }
    ensures told { D.tells → SavesText (text_of (found_lines (least (month_days problem.now modes.now) bill))) (D.scene desk.old) (D.scene desk.new) result }
    ensures empty { OnOk result (line.new.items ≡ []) }
    ensures input { D.input_open desk.new ≡ D.input_open desk.old }
    ensures output { D.output_open desk.new ≡ D.output_open desk.old }
    ensures taken { D.taken desk.new ≡ D.taken desk.old }
    ensures cause { HasCause (D.faults desk.old) (D.faults desk.new) result }
{
    save_days(desk, line, problem, modes)?;
    save_numbers(desk, line, "bill", &[units_of(bill)])
}

/// Saves the modes of each day.
fn save_days<D: Desk>(
    desk: &mut D,
    line: &mut Vec<u8>,
    problem: &Problem,
    modes: &[u8],
) -> Result<(), DeskFault>
    requires output { IsTrue (D.output_open desk.old) }
    requires empty { line.old.items ≡ [] }
    ensures told { D.tells → SavesText (text_of (day_lines 1 (month_days problem.now modes.now))) (D.scene desk.old) (D.scene desk.new) result }
    ensures empty { OnOk result (line.new.items ≡ []) }
    ensures input { D.input_open desk.new ≡ D.input_open desk.old }
    ensures output { D.output_open desk.new ≡ D.output_open desk.old }
    ensures taken { D.taken desk.new ≡ D.taken desk.old }
    ensures cause { HasCause (D.faults desk.old) (D.faults desk.new) result }
{
    let count = problem.intervals();
    let per_day = 1440 / problem.minutes() as u32;
    let days = count / per_day;
    let mut day = 0;
    let mut rest = modes;
    while day < days {
        let (now, behind) = rest.split_at(rest.len().min(per_day as usize));
        save_day(desk, line, day + 1, now)?;
        rest = behind;
        day += 1;
    }
    Ok(())
}

/// The amount; 0 where there is none.
fn money_of(money: Option<Money>) -> Money
    ensures { result ≡ unwrap_or money (pos 0) }
{
    match money {
        Some(amount) => amount,
        None => Money::new(0).unwrap(),
    }
}

/// The units of an amount.
fn units_of(money: Money) -> i128
    ensures value { result ≡ money }
    ensures small { unsigned_abs result < 10 ^ 38 }
{
    money.units()
}
