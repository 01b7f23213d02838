//! A record's row.

ghost use Rattle.std.specs.Prelude.{◌≡◌};
ghost use Rattle.d_urdb.specs.Refusals as spec;
ghost use Rattle.d_urdb.specs.Shown.{row_of};

use crate::cause::Cause;
use crate::fault::Refused;
use d_columns::Cells;

/// The row of a record.
#[derive(Drop)]
pub(crate) struct Record<'a> {
    pub cells: Cells<'a>,
}

impl<'a> Record<'a> {
    /// A refusal that names a column, or none.
    pub(crate) fn refusal(&self, cause: Cause, column: Option<usize>, detail: u64) -> Refused
        ensures { result ≡ spec.refusal (row_of self.now).header cause column detail }
    {
        Refused {
            number: cause.number(),
            column: column.unwrap_or(self.cells.columns()),
            detail,
        }
    }
}
