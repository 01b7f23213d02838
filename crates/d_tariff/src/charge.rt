//! Charges that don't depend on energy or demand.

use d_cal::Month;
use d_num::Money;

const MONTHS_OF_A_YEAR: i128 = 12;

/// How often a charge is made.
#[derive(Clone, Copy)]
pub enum ChargeUnit {
    Day,
    Month,
    Year,
}

/// An amount that is charged once every day, month or year.
#[derive(Clone, Copy)]
pub struct Charge {
    /// The amount, in units of 10^-21 USD, at most 10^9 USD in size in every tariff.
    pub amount: Money,
    /// How often it is charged.
    pub unit: ChargeUnit,
}

impl Charge {
    ghost use Rattle.std.specs.Prelude.{◌≡◌, ◌*◌, ◌^◌};
    ghost use Rattle.d_num.specs.Amount.{IsWithin};
    ghost use Rattle.d_tariff.specs.Terms.{IsCharge};
    ghost use Rattle.d_tariff.specs.Months.{month_charge};

    /// What it comes to in that month: the amount for each of its days, once, or a twelfth of it, rounded down to a whole unit of money.
    pub fn of_month(self, month: Month) -> Money
        requires { IsCharge self }
        ensures value { result ≡ month_charge self month.year month.number }
        ensures size { IsWithin (31 * 10 ^ 30) result }
    {
        Money::new(self.units_of(month)).unwrap()
    }

    /// The number of units of that.
    fn units_of(self, month: Month) -> i128
        requires { IsCharge self }
        ensures { result ≡ month_charge self month.year month.number }
    {
        let amount = self.amount.units();
        match self.unit {
            ChargeUnit::Day => amount * i128::from(month.days()),
            ChargeUnit::Month => amount,
            ChargeUnit::Year => amount.div_euclid(MONTHS_OF_A_YEAR),
        }
    }
}
