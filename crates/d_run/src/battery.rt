//! The reader of a battery file.

ghost use Rattle.d_table.specs.Table.{rows_of};
ghost use Rattle.d_run.specs.Replies.{GivesBattery};

use crate::fault::{Fault, Refusal};
use crate::table::read_table;
use d_batt::{Battery, BatteryFault};
use std::alloc::Global;

/// The battery in the file, or the refusal by the first check that fails.
pub fn read_battery(alloc: Global, bytes: &[u8]) -> Result<Battery, Fault>
    ensures { GivesBattery (rows_of bytes.now) result }
{
    let table = read_table(alloc, bytes, Refusal::Battery(BatteryFault::Shape))?;
    match d_batt::read_battery(alloc, &table) {
        Ok(battery) => Ok(battery),
        Err(BatteryFault::Memory) => Err(Fault::Memory),
        Err(fault) => Err(Refusal::Battery(fault).fault(alloc)),
    }
}
