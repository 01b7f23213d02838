//! The record of a label.

ghost use Rattle.std.specs.Prelude.{◌≡◌, ◌+◌, ◌<◌, length, None, Err, IfOk, IfErr};
ghost use Rattle.d_table.specs.Table.{row_at};
ghost use Rattle.d_urdb.specs.declared.rule.RuleChoice.{RuleChoice};
ghost use Rattle.d_urdb.specs.Numbers.{CellReader};
ghost use Rattle.d_urdb.specs.Refusals as spec;
ghost use Rattle.d_urdb.specs.Record.{record_outcome, row_outcome};
ghost use Rattle.d_columns.specs.Tiers.{data_row};

use crate::cause::Cause;
use crate::fault::Refused;
use d_table::Table;

/// The row of the record with this label, or why there is none: its number in the table's data rows, from 0.
pub(crate) fn find_row(table: &Table, label: &[u8]) -> Result<usize, Refused>
    ensures there { IfOk result (λ row. row + 1 < length table.now) }
    ensures row { IfOk result (λ row. (reader : CellReader) (rule : RuleChoice) →
        record_outcome reader table.now label.now rule ≡ row_outcome reader (data_row table.now row) rule) }
    ensures refused { IfErr result (λ refused. (reader : CellReader) (rule : RuleChoice) →
        record_outcome reader table.now label.now rule ≡ Err refused) }
{
    let Some(column) = table.position(b"label") else {
        return Err(refusal(table, Cause::NoColumn));
    };
    let mut found = None;
    for row in 0..table.rows() {
        if table.cell(row, column) == label {
            if found.is_some() {
                return Err(refusal(table, Cause::LabelTwice));
            }
            found = Some(row);
        }
    }
    match found {
        Some(row) => Ok(row),
        None => Err(refusal(table, Cause::NoLabel)),
    }
}

/// A refusal that names no column.
fn refusal(table: &Table, cause: Cause) -> Refused
    ensures { result ≡ spec.refusal (row_at table.now 0) cause None 0 }
{
    Refused {
        number: cause.number(),
        column: table.columns(),
        detail: 0,
    }
}
