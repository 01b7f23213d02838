//! The columns that nothing is read from.

ghost use Rattle.std.specs.Prelude.{◌≡◌, IfOk};
ghost use Rattle.d_columns.specs.Ignored.{ignored_columns};
ghost use Rattle.d_urdb.specs.Shown.{row_of};

use crate::row::Record;
use d_num::NoMemory;
use d_tariff::Columns;
use std::alloc::Global;

impl<'a> Record<'a> {
    /// The filled columns that nothing is read from, in order.
    pub(crate) fn ignored_columns(&self, alloc: Global) -> Result<Columns, NoMemory>
        ensures { IfOk result (λ columns. columns ≡ ignored_columns (row_of self.now)) }
    {
        let mut ignored = Columns::new(alloc);
        for column in 0..self.cells.columns() {
            if self.cells.is_ignored(column) {
                ignored.add(column)?;
            }
        }
        Ok(ignored)
    }
}
