//! What is added to energy prices for fuel.

ghost use Rattle.std.specs.Prelude.{◌≡◌, ◌*◌, ◌^◌, ◌∷◌, [], All, not, pos};
ghost use Rattle.std.specs.Ordering.{int_eq};
ghost use Rattle.d_num.specs.Amount.{IsWithin};
ghost use Rattle.d_urdb.specs.Adjustments as spec;
ghost use Rattle.d_urdb.specs.Checks.{Checks};
ghost use Rattle.d_urdb.specs.Items.{AreItemsOf, AreNumbers};
ghost use Rattle.d_urdb.specs.Periods.{price_limit};
ghost use Rattle.d_urdb.specs.Refusals.{each};
ghost use Rattle.d_urdb.specs.Shown.{row_of};

use crate::cause::Cause;
use crate::checks::PRICE_LIMIT;
use crate::fault::Refused;
use crate::months::Items;
use crate::row::Record;
use d_columns::MonthList;

impl<'a> Record<'a> {
    /// Tests that nothing is added for fuel in any month.
    pub(crate) fn check_fuel(&self) -> Result<(), Refused>
        ensures { Checks (λ reader. spec.fuel_refusals reader (row_of self.now)) result }
    {
        let items = self.items(MonthList::FuelAdjustments)?;
        let numbers = self.item_numbers(&items, PRICE_LIMIT)?;
        self.check_no_fuel(&items, &numbers)
    }

    /// Tests that the months' numbers are 0.
    fn check_no_fuel(&self, items: &Items, numbers: &[i128; 12]) -> Result<(), Refused>
        requires items { AreItemsOf (row_of self.now) MonthList.FuelAdjustments items.now }
        requires numbers { AreNumbers (row_of self.now) MonthList.FuelAdjustments price_limit numbers.now }
        requires small { All (IsWithin (price_limit * 10 ^ 18)) numbers.now }
        ensures { Checks (λ reader. each 12 (λ month. spec.fuel_refusal reader (row_of self.now) month ∷ [])) result }
    {
        for month in 0..12 {
            if numbers[usize::from(month)] != 0 {
                let column = self.item_column(items, month);
                return Err(self.refusal(Cause::FuelAdjustment, column, 0));
            }
        }
        Ok(())
    }
}
