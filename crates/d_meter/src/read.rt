//! The readings of a table.

ghost use Rattle.std.specs.Prelude.{◌≡◌, ◌⊎◌, ◌^◌, length, map, drop, All, Ok, Err, IfOk, IfErr};
ghost use Rattle.d_num.specs.Amount.{IsWithin};
ghost use Rattle.d_table.specs.Table.{row_at};
ghost use Rattle.d_meter.specs.Readings.{row_count, net_of, IsOutcome};
ghost use Rattle.d_meter.specs.Checks.{ChecksRows, Reads, FitsMonth};
ghost use Rattle.d_meter.specs.Shown.{metered_of};

use crate::fault::MeterFault;
use crate::head::{Head, read_head};
use crate::meter::{Meter, NetList};
use crate::row::read_row;
use d_table::Table;
use std::alloc::Global;

/// The month of readings that a table says, or the first reason why it is refused, in this order: the header isn't `start,net_wh`, ASCII
/// case ignored; there are fewer than two rows; one of the first two starts is none; the first isn't 00:00 of the first day of a month;
/// the second isn't 15, 30 or 60 minutes after it; there are more or fewer rows than the month has such intervals; then for each row, in
/// order: its start is none, or isn't that of its interval; its net reading is no whole number, or above 10^9 Wh in size. The form of the
/// file and this order are our own rules.
pub fn read_meter(alloc: Global, table: &Table) -> Result<Meter, MeterFault>
    ensures meter { IfOk result (λ meter. IsOutcome table.now (Ok (metered_of meter))) }
    ensures refused { IfErr result (λ fault. (fault ≡ MeterFault.Memory) ⊎ IsOutcome table.now (Err fault)) }
{
    let head = read_head(table)?;
    let net = read_rows(alloc, table, head)?;
    Ok(Meter {
        month: head.month,
        minutes: head.minutes,
        net,
    })
}

/// The net readings of all rows in order, or the first refusal of a row.
fn read_rows(alloc: Global, table: &Table, head: Head) -> Result<NetList, MeterFault>
    requires columns { length (row_at table.now 0) ≡ 2 }
    requires fits { FitsMonth (row_count table.now) head.month.year head.month.number head.minutes }
    ensures refusals { ChecksRows table.now head.month.year head.month.number head.minutes result }
    ensures net { IfOk result (λ net. Reads (λ reader. map (net_of reader) (drop 1 table.now)) net) }
    ensures count { IfOk result (λ net. length net ≡ row_count table.now) }
    ensures small { IfOk result (All (IsWithin (10 ^ 9))) }
{
    let mut net = NetList::new(alloc);
    for row in 0..table.rows() {
        net.add(read_row(table, head, row)?)?;
    }
    Ok(net)
}
