//! The table of a readings, battery or schedule file.

ghost use Rattle.d_table.specs.Table.{rows_of};
ghost use Rattle.d_run.specs.Replies.{GivesTable};

use crate::fault::{Fault, Refusal};
use d_table::{Table, TableFault};
use std::alloc::Global;

/// The table of all rows of a file, or the refusal of a file whose rows differ in length.
pub fn read_table(alloc: Global, bytes: &[u8], shape: Refusal) -> Result<Table, Fault>
    ensures { GivesTable (rows_of bytes.now) shape result }
{
    match d_table::read_table(alloc, bytes) {
        Ok(table) => Ok(table),
        Err(TableFault::Shape(_)) => Err(shape.fault(alloc)),
        Err(TableFault::Memory) => Err(Fault::Memory),
    }
}
