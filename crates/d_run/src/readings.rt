//! The reader of a readings file.

ghost use Rattle.d_table.specs.Table.{rows_of};
ghost use Rattle.d_run.specs.Replies.{GivesReadings};

use crate::fault::{Fault, Refusal};
use crate::table::read_table;
use d_meter::{Meter, MeterFault, read_meter};
use std::alloc::Global;

/// The month of readings in the file, or the refusal by the first check that fails.
pub fn read_readings(alloc: Global, bytes: &[u8]) -> Result<Meter, Fault>
    ensures { GivesReadings (rows_of bytes.now) result }
{
    let table = read_table(alloc, bytes, Refusal::Readings(MeterFault::Shape))?;
    match read_meter(alloc, &table) {
        Ok(meter) => Ok(meter),
        Err(MeterFault::Memory) => Err(Fault::Memory),
        Err(fault) => Err(Refusal::Readings(fault).fault(alloc)),
    }
}
