//! A tariff.

ghost use Rattle.d_tariff.specs.Terms.{IsTariff};

use crate::charge::Charge;
use crate::period::{Columns, Period, Periods, TierLists};
use d_cal::{Month, Schedule};
use d_num::{Money, Watt};
use d_tier::Tiers;

// 1, as fractions have it.
const WHOLE: u128 = 100_000_000_000_000_000_000;

/// The tariff of a record. A contract sees it as `terms_of` shows it.
#[derive(Drop)]
pub struct Tariff {
    /// Each of the energy periods 0 to 35, where it is there.
    pub energy: Periods,
    /// The tiers of each of the demand periods 0 to 35, where it has some.
    pub demand: TierLists,
    /// The tiers of each of the flat demand periods 0 to 35, where it has some.
    pub flat: TierLists,
    /// The energy period of each hour.
    pub energy_hours: Schedule,
    /// The demand period of each hour.
    pub demand_hours: Schedule,
    /// The flat demand period of each month, January first.
    pub flat_months: [u8; 12],
    /// Each month's own fraction of an earlier peak that is handed in, January first, in units of 10^-20: the month is billed for at least
    /// that much flat demand.
    pub ratchet: [u128; 12],
    /// What is charged whatever is used, by day, month or year.
    pub fixed: Charge,
    /// What a bill is at least, by day or month; None where there is no minimum.
    pub minimum: Option<Charge>,
    /// Whether energy is settled hour by hour.
    pub hourly: bool,
    /// The positions of the record's columns that nothing is read from, in order.
    pub ignored: Columns,
    pub ghost valid: { IsTariff
        (record {
          energy = energy;
          demand = demand;
          flat = flat;
          energy_weekday = energy_hours.weekday;
          energy_weekend = energy_hours.weekend;
          demand_weekday = demand_hours.weekday;
          demand_weekend = demand_hours.weekend;
          flat_months = flat_months;
          ratchet = ratchet;
          fixed = fixed;
          minimum = minimum;
          hourly = hourly;
          ignored = ignored;
        }) },
}

impl Tariff {
    ghost use Rattle.std.specs.Prelude.{◌≡◌, ◌<◌, ◌*◌, ◌^◌, ◌≤ℤ◌, Some, option_map, IfSome};
    ghost use Rattle.d_num.specs.Amount.{IsWithin};
    ghost use Rattle.d_cal.specs.Calendar.{IsDayOf};
    ghost use Rattle.d_tariff.specs.Terms.{HasEnergyPrices, HasDemandPrices, period_at, tiers_at, energy_at, flat_tiers_in};
    ghost use Rattle.d_tariff.specs.Months.{fixed_of, minimum_of, floor_of};
    ghost use Rattle.d_tariff.specs.Shown.{terms_of};

    /// The energy period of that number, or None exactly where there is none.
    pub fn period(&self, number: u8) -> Option<&Period>
        ensures value { option_map (λ period. period.now) result ≡ period_at (terms_of self.now).energy number }
        ensures prices { IfSome result (λ period. HasEnergyPrices period.now) }
        ensures valid { IsTariff (terms_of self.now) }
    {
        self.energy.entry(number)
    }

    /// The energy period in an hour, from 0, of that day of the month, from 1.
    pub fn period_at(&self, month: Month, day: u8, hour: u8) -> &Period
        requires day { IsDayOf month.year month.number day }
        requires hour { hour < 24 }
        ensures value { energy_at (terms_of self.now) month.year month.number day hour ≡ Some result.now }
        ensures prices { HasEnergyPrices result.now }
    {
        let number = self.energy_hours.period_at(month, day, hour);
        match self.period(number) {
            Some(period) => period,
            None => unreachable!(),
        }
    }

    /// The tiers of the demand period of that number, or None exactly where it has none.
    pub fn demand_tiers(&self, number: u8) -> Option<&Tiers>
        ensures value { option_map (λ tiers. tiers.now) result ≡ tiers_at (terms_of self.now).demand number }
        ensures prices { IfSome result (λ tiers. HasDemandPrices tiers.now) }
    {
        self.demand.entry(number)
    }

    /// The tiers of the flat demand period of a month, or None exactly where it has none.
    pub fn flat_tiers(&self, month: Month) -> Option<&Tiers>
        ensures value { option_map (λ tiers. tiers.now) result ≡ flat_tiers_in (terms_of self.now) month.number }
        ensures prices { IfSome result (λ tiers. HasDemandPrices tiers.now) }
    {
        self.flat
            .entry(self.flat_months[(month.number - 1) as usize])
    }

    /// What is charged for a month whatever is used (`fixedchargefirstmeter`): a charge by day for each of its days, one by month once, and
    /// a twelfth of one by year, rounded down to a whole unit of money.
    pub fn fixed_of(&self, month: Month) -> Money
        ensures value { result ≡ fixed_of (terms_of self.now) month.year month.number }
        ensures size { IsWithin (31 * 10 ^ 30) result }
    {
        self.fixed.of_month(month)
    }

    /// What a month's bill is at least (`mincharge`): by day for each of its days, by month once; None exactly where there is no minimum.
    pub fn minimum_of(&self, month: Month) -> Option<Money>
        ensures value { result ≡ minimum_of (terms_of self.now) month.year month.number }
        ensures size { IfSome result (IsWithin (31 * 10 ^ 30)) }
    {
        Some(self.minimum?.of_month(month))
    }

    /// The flat demand that a month is billed for at least (`lookbackpercent`, `demandratchetpercentage`): the month's fraction of an
    /// earlier peak, rounded down to whole watts.
    pub fn floor_of(&self, month: Month, prior: Watt) -> Watt
        ensures value { result ≡ floor_of (terms_of self.now) month.number prior }
        ensures most { result ≤ℤ prior }
    {
        let fraction = self.ratchet[(month.number - 1) as usize];
        let floor = fraction * prior.value() as u128 / WHOLE;
        Watt::new(floor as i64).unwrap()
    }
}
