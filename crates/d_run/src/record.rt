//! The reader of a record file.

ghost use Rattle.std.specs.Prelude.{◌≡◌};
ghost use Rattle.d_table.specs.Table.{rows_of};
ghost use Rattle.d_run.specs.RecordText.{record_text, hourly_text};
ghost use Rattle.d_run.specs.Answer.{says};
ghost use Rattle.d_run.specs.Replies.{EndsBy, GivesRecord};
ghost use Rattle.d_run.specs.declared.verdict.Verdict.TheVariants.{Record};

use crate::fault::{Fault, Refusal};
use crate::record_line::record_line;
use crate::reply::Reply;
use crate::verdict::Verdict;
use d_num::NoMemory;
use d_table::{Table, TableFault, read_where};
use d_tariff::Tariff;
use d_urdb::{RecordFault, Refused, RuleChoice, hourly_refusal};
use std::alloc::Global;

/// A record of a file and what it says.
#[derive(Drop)]
pub struct Recorded {
    /// The header and the first two rows with the record's label, from which names and cells are shown.
    pub table: Table,
    /// The record's tariff.
    pub tariff: Tariff,
}

/// The record of this label in the file. It is refused by the first row of another length than the header, or by the first refusal of the
/// record itself; the line names the column at fault, where there is one, and shows its cell.
pub fn read_record(
    alloc: Global,
    bytes: &[u8],
    label: &str,
    rule: RuleChoice,
) -> Result<Recorded, Fault>
    ensures { GivesRecord (rows_of bytes.now) label.now rule result }
{
    let label = label.as_bytes();
    let table = match read_where(alloc, bytes, b"label", label) {
        Ok(table) => table,
        Err(TableFault::Shape(row)) => return Err(Refusal::RecordShape(row).fault(alloc)),
        Err(TableFault::Memory) => return Err(Fault::Memory),
    };
    match d_urdb::read_record(alloc, &table, label, rule) {
        Ok(tariff) => Ok(Recorded { table, tariff }),
        Err(RecordFault::Refused(refused)) => Err(record_fault(alloc, &table, refused)),
        Err(RecordFault::Memory) => Err(Fault::Memory),
    }
}

/// The fault of the record of a table whose energy is settled hour by hour, where there isn't a reading an hour.
pub fn hourly_fault(alloc: Global, table: &Table) -> Fault
    ensures { EndsBy (λ end. end ≡ says Record (hourly_text table.now)) result }
{
    record_fault(alloc, table, hourly_refusal(table))
}

/// The fault of a record that is refused so.
fn record_fault(alloc: Global, table: &Table, refused: Refused) -> Fault
    ensures { EndsBy (λ end. end ≡ says Record (record_text table.now refused)) result }
{
    match record_line(alloc, table, refused) {
        Ok(text) => Fault::Refused(Reply {
            verdict: Verdict::Record,
            text,
        }),
        Err(NoMemory) => Fault::Memory,
    }
}
