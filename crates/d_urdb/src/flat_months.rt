//! The flat demand period of each month.

ghost use Rattle.std.specs.Prelude.{◌≡◌, ◌<◌, ◌≤◌, ◌∷◌, [], All, IfOk, IfSome};
ghost use Rattle.d_urdb.specs.Checks.{Checks};
ghost use Rattle.d_urdb.specs.FlatMonths as spec;
ghost use Rattle.d_urdb.specs.Items.{AreItemsOf};
ghost use Rattle.d_urdb.specs.Numbers.{Reads};
ghost use Rattle.d_urdb.specs.PeriodDigits.{with_digit};
ghost use Rattle.d_urdb.specs.Refusals.{each};
ghost use Rattle.d_urdb.specs.Shown.{row_of};

use crate::cause::Cause;
use crate::fault::Refused;
use crate::months::Items;
use crate::row::Record;
use d_columns::{MonthList, PERIODS};

impl<'a> Record<'a> {
    /// The flat demand period of each month, or why there are none.
    pub(crate) fn flat_months(&self) -> Result<[u8; 12], Refused>
        ensures refusals { Checks (λ reader. spec.month_refusals reader (row_of self.now)) result }
        ensures value { IfOk result (Reads (λ reader. spec.flat_months reader (row_of self.now))) }
        ensures range { IfOk result (All (λ period. period ≤ 35)) }
    {
        let items = self.items(MonthList::FlatPeriods)?;
        self.periods_of(&items)
    }

    /// The periods that the items say.
    fn periods_of(&self, items: &Items) -> Result<[u8; 12], Refused>
        requires { AreItemsOf (row_of self.now) MonthList.FlatPeriods items.now }
        ensures refusals { Checks (λ reader. each 12 (λ month. spec.month_refusal reader (row_of self.now) month ∷ [])) result }
        ensures value { IfOk result (Reads (λ reader. spec.flat_months reader (row_of self.now))) }
        ensures range { IfOk result (All (λ period. period ≤ 35)) }
    {
        let mut months = [0; 12];
        for month in 0..12 {
            months[usize::from(month)] = self.period_of(items, month)?;
        }
        Ok(months)
    }

    /// The period that a month's item says, or why it says none.
    fn period_of(&self, items: &Items, month: u8) -> Result<u8, Refused>
        requires month { month < 12 }
        requires items { AreItemsOf (row_of self.now) MonthList.FlatPeriods items.now }
        ensures refusals { Checks (λ reader. spec.month_refusal reader (row_of self.now) month ∷ []) result }
        ensures value { IfOk result (Reads (λ reader. spec.flat_month reader (row_of self.now) month)) }
        ensures range { IfOk result (λ period. period ≤ 35) }
    {
        match read_period(self.item(items, month)) {
            Some(period) => Ok(period),
            None => {
                let column = self.item_column(items, month);
                Err(self.refusal(Cause::Grid, column, 0))
            }
        }
    }
}

/// The period that a text says: a whole number from 0 to 35, with zeros in front of it or none. A blank text says 0.
fn read_period(text: &[u8]) -> Option<u8>
    ensures value { result ≡ spec.period_in text.now }
    ensures range { IfSome result (λ period. period ≤ 35) }
{
    let mut number = 0;
    for place in 0..text.len() {
        match with_digit(number, text[place]) {
            Some(next) => number = next,
            None => return None,
        }
    }
    Some(number)
}

/// The number with one more digit at its end, or None where the byte is no digit or the number passes 35.
fn with_digit(number: u8, byte: u8) -> Option<u8>
    requires { number ≤ 35 }
    ensures value { result ≡ with_digit number byte }
    ensures range { IfSome result (λ next. next ≤ 35) }
{
    if byte < b'0' || byte > b'9' {
        return None;
    }
    let next = u16::from(number) * 10 + u16::from(byte - b'0');
    if next < u16::from(PERIODS) {
        Some(next as u8)
    } else {
        None
    }
}
