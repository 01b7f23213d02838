//! The rules of all periods of a structure.

ghost use Rattle.std.specs.Prelude.{OnOk};
ghost use Rattle.d_urdb.specs.Shown.{row_of};
ghost use Rattle.d_urdb.specs.Checks.{ChecksOrNot};
ghost use Rattle.d_urdb.specs.Refusals.{each};
ghost use Rattle.d_urdb.specs.Periods.{period_refusals};
ghost use Rattle.d_urdb.specs.Energy.{HasRisingPeriods};
ghost use Rattle.d_urdb.specs.Values.{HasSoundPrices};

use crate::fault::RecordFault;
use crate::row::Record;
use d_columns::{PERIODS, Structure};
use std::alloc::Global;

impl<'a> Record<'a> {
    /// Tests the rules of each period of a structure, in order.
    pub(crate) fn check_periods(
        &self,
        alloc: Global,
        structure: Structure,
    ) -> Result<(), RecordFault>
        ensures refusals { ChecksOrNot (λ reader. each 36 (period_refusals reader (row_of self.now) structure)) result }
        ensures rising { OnOk result (HasRisingPeriods (row_of self.now) structure) }
        ensures prices { OnOk result (HasSoundPrices (row_of self.now) structure) }
    {
        for period in 0..PERIODS {
            self.check_period(alloc, structure, period)?;
        }
        Ok(())
    }
}
