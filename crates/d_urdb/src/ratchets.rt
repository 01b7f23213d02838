//! The fractions of earlier demand that months are billed for at least.

ghost use Rattle.std.specs.Prelude.{◌≡◌, ℤ, ◌<◌, ◌≤◌, ◌*◌, ◌^◌, ◌∷◌, [], All, IfOk};
ghost use Rattle.d_num.specs.Amount.{IsWithin};
ghost use Rattle.d_urdb.specs.Checks.{Checks};
ghost use Rattle.d_urdb.specs.Items.{AreItemsOf, AreNumbers};
ghost use Rattle.d_urdb.specs.NamedNumbers.{named_number};
ghost use Rattle.d_urdb.specs.Numbers.{Reads};
ghost use Rattle.d_urdb.specs.Ratchets as spec;
ghost use Rattle.d_urdb.specs.Refusals.{each};
ghost use Rattle.d_urdb.specs.Shown.{row_of};

use crate::cause::Cause;
use crate::fault::Refused;
use crate::months::Items;
use crate::row::Record;
use d_columns::MonthList;

// The most that a fraction or a percent may be.
const FRACTION_LIMIT: u64 = 100;

// The number 1, in units of 10^-18.
const ONE: u128 = 1_000_000_000_000_000_000;

impl<'a> Record<'a> {
    /// The fraction of each month in units of 10^-20, or why there are none.
    pub(crate) fn ratchets(&self) -> Result<[u128; 12], Refused>
        ensures refusals { Checks (λ reader. spec.ratchet_refusals reader (row_of self.now)) result }
        ensures value { IfOk result (Reads (λ reader. spec.ratchets reader (row_of self.now))) }
        ensures range { IfOk result (All (λ fraction. fraction ≤ 10 ^ 20)) }
    {
        let items = self.items(MonthList::Ratchets)?;
        let numbers = self.item_numbers(&items, FRACTION_LIMIT)?;
        let lookback = self.named_number(b"lookbackpercent", FRACTION_LIMIT)?;
        self.check_fractions(&items, &numbers)?;
        self.check_lookback(lookback)?;
        Ok(self.fractions(&items, &numbers, lookback))
    }

    /// Tests that no month's number is below 0.
    fn check_fractions(&self, items: &Items, numbers: &[i128; 12]) -> Result<(), Refused>
        requires items { AreItemsOf (row_of self.now) MonthList.Ratchets items.now }
        requires numbers { AreNumbers (row_of self.now) MonthList.Ratchets 100 numbers.now }
        requires small { All (IsWithin (100 * 10 ^ 18)) numbers.now }
        ensures { Checks (λ reader. each 12 (λ month. spec.fraction_refusal reader (row_of self.now) month ∷ [])) result }
    {
        for month in 0..12 {
            if numbers[usize::from(month)] < 0 {
                let column = self.item_column(items, month);
                return Err(self.refusal(Cause::Fraction, column, 0));
            }
        }
        Ok(())
    }

    /// Tests that the number of all months that have none of their own isn't below 0.
    fn check_lookback(&self, lookback: i128) -> Result<(), Refused>
        requires number { Reads (λ reader. named_number reader (row_of self.now) 100 spec.lookback_name) lookback }
        requires limit { IsWithin (100 * 10 ^ 18) lookback }
        ensures { Checks (λ reader. spec.lookback_refusal reader (row_of self.now) ∷ []) result }
    {
        if lookback < 0 {
            let column = self.cells.position(b"lookbackpercent");
            return Err(self.refusal(Cause::Fraction, column, 0));
        }
        Ok(())
    }

    /// The fraction of each month by the months' numbers and that of all months that have none of their own.
    fn fractions(&self, items: &Items, numbers: &[i128; 12], lookback: i128) -> [u128; 12]
        requires items { AreItemsOf (row_of self.now) MonthList.Ratchets items.now }
        requires numbers { AreNumbers (row_of self.now) MonthList.Ratchets 100 numbers.now }
        requires small { All (IsWithin (100 * 10 ^ 18)) numbers.now }
        requires lookback { Reads (λ reader. named_number reader (row_of self.now) 100 spec.lookback_name) lookback }
        requires limit { IsWithin (100 * 10 ^ 18) lookback }
        ensures value { Reads (λ reader. spec.ratchets reader (row_of self.now)) result }
        ensures range { All (λ fraction. fraction ≤ 10 ^ 20) result }
    {
        let mut fractions = [0; 12];
        for month in 0..12 {
            let number = numbers[usize::from(month)];
            fractions[usize::from(month)] = self.fraction(items, month, number, lookback);
        }
        fractions
    }

    /// The fraction of a month by its number, or by that of all months where it has none of its own.
    fn fraction(&self, items: &Items, month: u8, number: i128, lookback: i128) -> u128
        requires month { month < 12 }
        requires items { AreItemsOf (row_of self.now) MonthList.Ratchets items.now }
        requires number { Reads (λ reader. spec.month_number reader (row_of self.now) month) number }
        requires small { IsWithin (100 * 10 ^ 18) number }
        requires lookback { Reads (λ reader. named_number reader (row_of self.now) 100 spec.lookback_name) lookback }
        requires limit { IsWithin (100 * 10 ^ 18) lookback }
        ensures value { Reads (λ reader. spec.ratchet_of reader (row_of self.now) month) result }
        ensures range { result ≤ 10 ^ 20 }
    {
        if self.item(items, month).is_empty() {
            fraction_of(lookback)
        } else {
            fraction_of(number)
        }
    }
}

/// A number in units of 10^-18 as a fraction in units of 10^-20. Above 1 it is a percent, and below 0 it counts as 0.
fn fraction_of(units: i128) -> u128
    requires { IsWithin (100 * 10 ^ 18) units }
    ensures value { result ≡ spec.fraction_of units }
    ensures range { result ≤ 10 ^ 20 }
{
    if units < 0 {
        return 0;
    }
    let units = units as u128;
    if units > ONE { units } else { units * 100 }
}
