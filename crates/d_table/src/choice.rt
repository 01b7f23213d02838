//! Which data rows of a file are kept.

ghost use Rattle.std.specs.Prelude.{◌≡◌, ◌<◌, length, IfOk, IfErr};
ghost use Rattle.csv.specs.Records.{fields_of};
ghost use Rattle.d_table.specs.Table.{row_at};
ghost use Rattle.d_table.specs.Cells.{cells_of};
ghost use Rattle.d_table.specs.Choice.{is_kept, with_kept};

use crate::cell::cell_of;
use crate::table::{Table, TableFault};
use csv::ByteRecord;

// How many rows of a value are kept.
const MOST_OF_A_VALUE: usize = 2;

/// Which data rows are kept.
#[derive(Clone, Copy)]
pub(crate) enum Choice<'a> {
    /// Each of them.
    Every,
    /// The first two of those whose cell in this column is this value.
    Where { column: usize, value: &'a [u8] },
    /// None of them.
    Nothing,
}

impl<'a> Choice<'a> {
    /// The table with this row at its end, where the row is kept.
    pub(crate) fn keep(&self, table: Table, row: &ByteRecord) -> Result<Table, TableFault>
        requires there { 0 < length table }
        requires width { length (fields_of row.now) ≡ length (row_at table 0) }
        ensures value { IfOk result (λ kept. kept ≡ with_kept self.now table (cells_of row.now)) }
        ensures fault { IfErr result (λ fault. fault ≡ TableFault.Memory) }
    {
        if self.takes(table.rows(), row) {
            table.with_row(row)
        } else {
            Ok(table)
        }
    }

    /// Whether this row is kept, behind so many that are.
    fn takes(&self, kept: usize, row: &ByteRecord) -> bool
        ensures { result ≡ is_kept self.now kept (cells_of row.now) }
    {
        match *self {
            Choice::Every => true,
            Choice::Where { column, value } => {
                kept < MOST_OF_A_VALUE && cell_of(row, column) == value
            }
            Choice::Nothing => false,
        }
    }
}
