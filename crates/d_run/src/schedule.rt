//! The reader of a schedule file.

ghost use Rattle.d_table.specs.Table.{rows_of};
ghost use Rattle.d_run.specs.Replies.{GivesSchedule};

use crate::fault::{Fault, Refusal};
use crate::table::read_table;
use d_bill::{Problem, ScheduleFault, read_schedule};
use std::alloc::Global;

/// The modes of the schedule in the file, one an interval, as numbers of the battery's modes; or the refusal by the first check that
/// fails: the rows' lengths and the header, the count of rows, and row by row its start and its mode's name.
pub fn read_modes(alloc: Global, bytes: &[u8], problem: &Problem) -> Result<Vec<u8>, Fault>
    ensures { GivesSchedule problem.now (rows_of bytes.now) result }
{
    let table = read_table(alloc, bytes, Refusal::Schedule(ScheduleFault::Shape))?;
    let mut modes = vec![in alloc; 0u8; problem.intervals() as usize]?;
    match read_schedule(&table, problem, modes.as_mut_slice()) {
        Ok(()) => Ok(modes),
        Err(fault) => Err(Refusal::Schedule(fault).fault(alloc)),
    }
}
