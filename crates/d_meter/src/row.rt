//! A row of the readings.

ghost use Rattle.std.specs.Prelude.{◌≡◌, ◌+◌, ◌*◌, ◌<◌, ◌^◌, ◌∷◌, [], length, Some, Ok, Err, IfOk, IfSome};
ghost use Rattle.d_cal.specs.Starts.{IsInCalendar, start_of};
ghost use Rattle.jiff_core.specs.Calendar.{days_in_month};
ghost use Rattle.d_num.specs.Amount.{IsWithin};
ghost use Rattle.d_table.specs.Table.{row_at};
ghost use Rattle.d_meter.specs.Readings as spec;
ghost use Rattle.d_meter.specs.Checks.{Checks, Reads, FitsMonth};

use crate::fault::MeterFault;
use crate::head::Head;
use d_cal::{Start, read_start};
use d_num::Wh;
use d_table::Table;
use d_text::{DecimalFault, read_decimal};

// The most Wh that a net reading may be in size.
const NET_LIMIT: u64 = 1_000_000_000;

/// The start of a data row, counted from 0, or None exactly where its cell is none.
pub(crate) fn start_at(table: &Table, row: usize) -> Option<Start>
    requires row { row + 1 < length table.now }
    requires columns { length (row_at table.now 0) ≡ 2 }
    ensures value { Reads (λ reader. spec.start_at reader table.now row) result }
    ensures calendar { IfSome result IsInCalendar }
{
    read_start(table.cell(row, 0))
}

/// The net reading of a data row, counted from 0, or the row's first refusal.
pub(crate) fn read_row(table: &Table, head: Head, row: usize) -> Result<Wh, MeterFault>
    requires row { row + 1 < length table.now }
    requires columns { length (row_at table.now 0) ≡ 2 }
    requires fits { FitsMonth (spec.row_count table.now) head.month.year head.month.number head.minutes }
    ensures refusals { Checks (λ reader. spec.row_refusals reader table.now head.month.year head.month.number head.minutes row) result }
    ensures net { IfOk result (λ net. Reads (λ reader. spec.net_at reader table.now row) (Ok net)) }
    ensures small { IfOk result (IsWithin (10 ^ 9)) }
{
    let Some(start) = start_at(table, row) else {
        return Err(MeterFault::Start(row as u64));
    };
    if !is_due(start, head, row as u64, table.rows() as u64) {
        return Err(MeterFault::Order(row as u64));
    }
    read_net(table, row)
}

/// Whether the start is that of the interval of the month, of which there are so many.
fn is_due(start: Start, head: Head, row: u64, count: u64) -> bool
    requires row { row < count }
    requires fits { FitsMonth count head.month.year head.month.number head.minutes }
    ensures { result ≡ spec.is_same start (start_of head.month.year head.month.number head.minutes row) }
{
    let due = Start::of(head.month, head.minutes, row as u32);
    start.year == due.year
        && start.month == due.month
        && start.day == due.day
        && start.minute == due.minute
}

/// The net reading of a data row, counted from 0, or why it is refused.
fn read_net(table: &Table, row: usize) -> Result<Wh, MeterFault>
    requires row { row + 1 < length table.now }
    requires columns { length (row_at table.now 0) ≡ 2 }
    ensures refusals { Checks (λ reader. spec.net_refusal (spec.net_at reader table.now row) row ∷ []) result }
    ensures net { IfOk result (λ net. Reads (λ reader. spec.net_at reader table.now row) (Ok net)) }
    ensures small { IfOk result (IsWithin (10 ^ 9)) }
{
    match net_at(table, row) {
        Ok(net) => Ok(energy(net)),
        Err(fault) => Err(refusal(fault, row as u64)),
    }
}

/// The number in the net cell of a data row, counted from 0, or why there is none.
fn net_at(table: &Table, row: usize) -> Result<i128, DecimalFault>
    requires row { row + 1 < length table.now }
    requires columns { length (row_at table.now 0) ≡ 2 }
    ensures value { Reads (λ reader. spec.net_at reader table.now row) result }
    ensures small { IfOk result (IsWithin (10 ^ 9)) }
{
    read_decimal(table.cell(row, 1), 0, NET_LIMIT)
}

/// The refusal of a row whose net reading has this fault.
fn refusal(fault: DecimalFault, row: u64) -> MeterFault
    ensures { Some result ≡ spec.net_refusal (Err fault) row }
{
    match fault {
        DecimalFault::TooLarge => MeterFault::TooLarge(row),
        DecimalFault::Empty | DecimalFault::Form(_) | DecimalFault::TooFine => {
            MeterFault::Number(row)
        }
    }
}

/// So many watt-hours.
fn energy(net: i128) -> Wh
    requires { IsWithin (10 ^ 9) net }
    ensures { result ≡ net }
{
    Wh::new(net as i64).unwrap()
}
