//! The month and the length of the intervals, as the first two starts say them.

ghost use Rattle.std.specs.Prelude.{◌≡◌, ◌<◌, true, false, length, IsTrue, OnOk, IfOk, IfNone, IfSome};
ghost use Rattle.d_cal.specs.Starts.{IsInCalendar};
ghost use Rattle.d_num.specs.Amount.{IsReadingLength};
ghost use Rattle.d_table.specs.Table.{row_at};
ghost use Rattle.d_meter.specs.Readings as spec;
ghost use Rattle.d_meter.specs.Checks.{Checks, Decides, FitsMonth, IsHead, IsHeadOf};

use crate::fault::MeterFault;
use crate::row::start_at;
use d_cal::{Month, Start};
use d_table::Table;

/// What the first two starts say.
#[derive(Clone, Copy)]
pub(crate) struct Head {
    /// The month of the readings.
    pub month: Month,
    /// The length of an interval: 15, 30 or 60 minutes.
    pub minutes: u8,
}

/// The month and the length of the intervals, or the first refusal before the rows are gone through.
pub(crate) fn read_head(table: &Table) -> Result<Head, MeterFault>
    ensures refusals { Checks (λ reader. spec.head_refusals reader table.now) result }
    ensures columns { OnOk result (length (row_at table.now 0) ≡ 2) }
    ensures fits { IfOk result (λ head. FitsMonth (spec.row_count table.now) head.month.year head.month.number head.minutes) }
    ensures head { IfOk result (λ head. IsHead table.now head.month.year head.month.number head.minutes) }
{
    if !has_names(table) {
        return Err(MeterFault::Shape);
    }
    let count = table.rows();
    if count < 2 {
        return Err(MeterFault::Count(count as u64, 2));
    }
    let Some(first) = start_at(table, 0) else {
        return Err(MeterFault::Start(0));
    };
    let Some(second) = start_at(table, 1) else {
        return Err(MeterFault::Start(1));
    };
    head_of(first, second, count as u64)
}

/// Whether the header is `start,net_wh`, ASCII case ignored.
fn has_names(table: &Table) -> bool
    ensures value { result ≡ spec.is_header (row_at table.now 0) }
    ensures columns { IsTrue result → length (row_at table.now 0) ≡ 2 }
{
    table.has_header(&[b"start", b"net_wh"])
}

/// The month and the length of the intervals that the first two starts say, of so many rows, or why they say none.
fn head_of(first: Start, second: Start, count: u64) -> Result<Head, MeterFault>
    requires first { IsInCalendar first }
    requires second { IsInCalendar second }
    ensures refusals { Decides (spec.month_refusals first second count) result }
    ensures fits { IfOk result (λ head. FitsMonth count head.month.year head.month.number head.minutes) }
    ensures head { IfOk result (λ head. IsHeadOf first second head.month.year head.month.number head.minutes) }
{
    if !begins_month(first) {
        return Err(MeterFault::Order(0));
    }
    let Some(minutes) = step_of(first, second) else {
        return Err(MeterFault::Step);
    };
    let month = Month::new(first.year, first.month).unwrap();
    let need = u64::from(month.days()) * 1440 / u64::from(minutes);
    if count != need {
        return Err(MeterFault::Count(count, need));
    }
    Ok(Head { month, minutes })
}

/// Whether the start is 00:00 of the first day of a month.
fn begins_month(start: Start) -> bool
    ensures { result ≡ spec.begins_month start }
{
    start.day == 1 && start.minute == 0
}

/// How many minutes the second start is after the first minute of the first one's month, or None exactly where that isn't 15, 30 or 60.
fn step_of(first: Start, second: Start) -> Option<u8>
    requires { second.minute < 1440 }
    ensures none { IfNone result (spec.is_step first second ≡ false) }
    ensures some { IfSome result (λ minutes. (spec.is_step first second ≡ true) × (second.minute ≡ minutes) × IsReadingLength minutes) }
{
    if second.year != first.year || second.month != first.month || second.day != 1 {
        return None;
    }
    match second.minute {
        15 => Some(15),
        30 => Some(30),
        60 => Some(60),
        _ => None,
    }
}
