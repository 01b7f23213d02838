//! Numbers in columns of one name.

ghost use Rattle.std.specs.Prelude.{◌≡◌, ◌≤◌, ◌*◌, ◌^◌, [], ◌∷◌, IfOk};
ghost use Rattle.d_num.specs.Amount.{IsWithin};
ghost use Rattle.d_urdb.specs.Checks.{Checks};
ghost use Rattle.d_urdb.specs.NamedNumbers as spec;
ghost use Rattle.d_urdb.specs.Numbers.{Reads};
ghost use Rattle.d_urdb.specs.Shown.{row_of};

use crate::cause::Cause;
use crate::fault::Refused;
use crate::number::{fault_detail, read_number};
use crate::row::Record;

impl<'a> Record<'a> {
    /// The number in the column of that name, in units of 10^-18 and at most `limit` in size, or why its cell has none. It is 0 where the
    /// cell is blank or there is no such column. The name is in small letters.
    pub(crate) fn named_number(&self, name: &[u8], limit: u64) -> Result<i128, Refused>
        requires limit { limit ≤ 10 ^ 10 }
        ensures refusals { Checks (λ reader. spec.name_refusal reader (row_of self.now) limit name.now ∷ []) result }
        ensures value { IfOk result (Reads (λ reader. spec.named_number reader (row_of self.now) limit name.now)) }
        ensures range { IfOk result (IsWithin (limit * 10 ^ 18)) }
    {
        match read_number(self.cells.named_cell(name), limit) {
            Ok(units) => Ok(units),
            Err(fault) => {
                let column = self.cells.position(name);
                Err(self.refusal(Cause::Decimal, column, fault_detail(fault)))
            }
        }
    }
}
