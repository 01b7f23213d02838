//! The reader of a file of a schedule.

ghost use Rattle.std.specs.Prelude.{◌≡◌, ℕ, ◌+◌, ◌<◌, ◌↔◌, IsTrue, length, OnOk, OnErr, IfErr, IfNone, IfSome};
ghost use Rattle.d_bill.specs.ScheduleFile.{IsScheduleFile, IsScheduleFault, IsRightTo, IsModeNamed, HasHeader, HasStart};

use crate::problem::Problem;
use d_cal::{Start, read_start};
use d_table::Table;

/// Why a table is no schedule. Rows are data rows, counted from 0.
#[derive(Clone, Copy)]
pub enum ScheduleFault {
    /// The header isn't exactly `start,mode`, ASCII case ignored.
    Shape,
    /// The number of data rows, and the number of intervals, from which it differs.
    Count(u64, u64),
    /// The first cell of this row isn't the start of its interval.
    Start(u64),
    /// No mode of the battery has the name in the second cell of this row.
    Mode(u64),
}

/// Reads the schedule that the table writes: a header `start,mode` and a row for each interval, in order, with its start and the name
/// of a mode of the battery. Any other table is refused with the first of the causes in the order above, row by row, and the schedule
/// stays as it was. It takes no memory.
pub fn read_schedule(
    table: &Table,
    problem: &Problem,
    schedule: &mut [u8],
) -> Result<(), ScheduleFault>
    requires { length schedule.old ≡ length problem.now.net }
    ensures read { OnOk result (IsScheduleFile problem.now table.now schedule.new) }
    ensures fault { IfErr result (IsScheduleFault problem.now table.now) }
    ensures same { OnErr result (schedule.new ≡ schedule.old) }
{
    check_rows(table, problem)?;
    for t in 0..problem.intervals() as usize {
        schedule[t] = mode_named(problem, table.cell(t, 1)).unwrap();
    }
    Ok(())
}

/// Checks the header, the number of rows, and each row from the first.
fn check_rows(table: &Table, problem: &Problem) -> Result<(), ScheduleFault>
    ensures right { OnOk result (IsRightTo problem.now table.now (length problem.now.net)) }
    ensures fault { IfErr result (IsScheduleFault problem.now table.now) }
{
    check_form(table, problem)?;
    for t in 0..problem.intervals() {
        check_row(table, problem, t)?;
    }
    Ok(())
}

/// Checks the header and the number of rows.
fn check_form(table: &Table, problem: &Problem) -> Result<(), ScheduleFault>
    ensures right { OnOk result (IsRightTo problem.now table.now 0) }
    ensures fault { IfErr result (IsScheduleFault problem.now table.now) }
{
    if !table.has_header(&[b"start", b"mode"]) {
        return Err(ScheduleFault::Shape);
    }
    let have = table.rows() as u64;
    let need = problem.intervals() as u64;
    if have != need {
        return Err(ScheduleFault::Count(have, need));
    }
    Ok(())
}

/// Checks a row behind right ones: its start, and then the name of its mode.
fn check_row(table: &Table, problem: &Problem, t: u32) -> Result<(), ScheduleFault>
    requires right { IsRightTo problem.now table.now t }
    requires there { t < length problem.now.net }
    ensures right { OnOk result (IsRightTo problem.now table.now (t + 1)) }
    ensures fault { IfErr result (IsScheduleFault problem.now table.now) }
{
    if !has_start(table, problem, t) {
        return Err(ScheduleFault::Start(t as u64));
    }
    if mode_named(problem, table.cell(t as usize, 1)).is_none() {
        return Err(ScheduleFault::Mode(t as u64));
    }
    Ok(())
}

/// Whether data row t has the start of interval t.
fn has_start(table: &Table, problem: &Problem, t: u32) -> bool
    requires header { HasHeader table.now }
    requires count { length table.now ≡ length problem.now.net + 1 }
    requires there { t < length problem.now.net }
    ensures { IsTrue result ↔ HasStart problem.now table.now t }
{
    match read_start(table.cell(t as usize, 0)) {
        Some(start) => start == Start::of(problem.month(), problem.minutes(), t),
        None => false,
    }
}

/// The number of the battery's mode of that name, or None exactly where no mode has it.
fn mode_named(problem: &Problem, name: &[u8]) -> Option<u8>
    ensures some { IfSome result (IsModeNamed problem.now.storage.modes name.now) }
    ensures none { IfNone result ((number : ℕ) → ¬ IsModeNamed problem.now.storage.modes name.now number) }
{
    let modes = problem.battery().modes.as_slice();
    for number in 0..modes.len() {
        if modes[number].name.bytes() == name {
            return Some(number as u8);
        }
    }
    None
}
