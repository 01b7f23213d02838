//! The problem that a plan is made for.

use crate::arc::Interval;
use d_batt::Battery;
use d_cal::Month;
use d_list::Items;
use d_meter::NetList;
use d_num::{Money, Rate, Wh};
use d_tariff::{Period, Periods};
use d_tier::{Peak, Tiers};
use std::marker::Model;

/// A month's readings, the terms that hold in it, and its battery. A contract sees it as `Inputs`.
#[derive(Drop)]
pub struct Problem {
    pub(crate) month: Month,
    pub(crate) minutes: u8,
    pub(crate) net: NetList,
    pub(crate) periods: Items<u8>,
    pub(crate) demands: Items<u8>,
    pub(crate) energy: Periods,
    pub(crate) demand_groups: Items<u8>,
    pub(crate) peaks: Items<Peak>,
    pub(crate) fixed: Money,
    pub(crate) minimum: Option<Money>,
    pub(crate) battery: Battery,
}

impl Model for Problem {
    ghost use Rattle.d_batt.specs.Shown.{storage_of};
    ghost use Rattle.d_bill.specs.Inputs.{Inputs, IsInRange};

    ghost Value = { Inputs };

    ghost view = { λ a. record {
      year = a.month.year;
      number = a.month.number;
      minutes = a.minutes;
      net = a.net;
      periods = a.periods;
      demands = a.demands;
      energy = a.energy;
      demand_groups = a.demand_groups;
      peaks = a.peaks;
      fixed = a.fixed;
      minimum = a.minimum;
      storage = storage_of a.battery;
    } };

    ghost invariant = { λ a. IsInRange (record {
      year = a.month.year;
      number = a.month.number;
      minutes = a.minutes;
      net = a.net;
      periods = a.periods;
      demands = a.demands;
      energy = a.energy;
      demand_groups = a.demand_groups;
      peaks = a.peaks;
      fixed = a.fixed;
      minimum = a.minimum;
      storage = storage_of a.battery;
    }) };
}

impl Problem {
    ghost use Rattle.std.specs.Prelude.{◌≡◌, ◌↔◌, ◌*◌, ◌^◌, ◌<◌, [], Some, All, IsSome, IsTrue, length, IfSome, option_map, slice_get};
    ghost use Rattle.std.specs.Option.{ForSome};
    ghost use Rattle.d_num.specs.Amount.{IsWithin};
    ghost use Rattle.d_tariff.specs.Terms.{period_at};
    ghost use Rattle.d_batt.specs.Shown.{storage_of};
    ghost use Rattle.d_bill.specs.Inputs.{IsInRange, HasPrices, period_in, sell_of, sell_at, is_in_group};
    ghost use Rattle.d_bill.specs.Flows.{net_at};
    ghost use Rattle.d_bill.specs.Slopes.{tiered, tiered_at};

    /// The number of intervals.
    pub fn intervals(&self) -> u32
        ensures value { result ≡ length self.now.net }
        ensures range { IsInRange self.now }
    {
        self.net.len() as u32
    }

    /// The length of an interval in minutes.
    pub fn minutes(&self) -> u8
        ensures { result ≡ self.now.minutes }
    {
        self.minutes
    }

    /// The month.
    pub fn month(&self) -> Month
        ensures year { result.year ≡ self.now.year }
        ensures number { result.number ≡ self.now.number }
        ensures range { IsInRange self.now }
    {
        self.month
    }

    /// The battery.
    pub fn battery(&self) -> &Battery
        ensures { storage_of result.now ≡ self.now.storage }
    {
        &self.battery
    }

    /// What is charged whatever is used.
    pub fn fixed(&self) -> Money
        ensures value { result ≡ self.now.fixed }
        ensures range { IsInRange self.now }
    {
        self.fixed
    }

    /// What the bill is at least, or None exactly where there is no minimum.
    pub fn minimum(&self) -> Option<Money>
        ensures { result ≡ self.now.minimum }
    {
        self.minimum
    }

    /// An interval: its net reading, its energy period and what is paid for its export.
    pub fn interval(&self, t: u32) -> Interval
        requires { t < length self.now.net }
        ensures net { result.net ≡ net_at self.now t }
        ensures small { IsWithin (10 ^ 9) result.net }
        ensures period { result.period ≡ period_in self.now t }
        ensures below { result.period < 36 }
        ensures sell { result.sell ≡ sell_at self.now t }
        ensures range { IsInRange self.now }
    {
        let period = self.periods.as_slice()[t as usize];
        Interval {
            net: self.net.as_slice()[t as usize],
            period,
            sell: self.sell(period),
        }
    }

    /// What is paid for a period's export; 0 where there is no such period.
    fn sell(&self, period: u8) -> Rate
        ensures { result ≡ sell_of self.now.energy period }
    {
        match self.energy(period) {
            Some(found) => found.sell,
            None => Rate::new(0).unwrap(),
        }
    }

    /// The energy period of that number, or None exactly where no interval is in it.
    pub fn energy(&self, period: u8) -> Option<&Period>
        ensures value { option_map (λ found. found.now) result ≡ period_at self.now.energy period }
        ensures prices { IfSome result (λ found. HasPrices found.now) }
        ensures range { IsInRange self.now }
    {
        self.energy.entry(period)
    }

    /// The tiers of an energy period that some interval is in.
    pub fn tiers(&self, period: u8) -> &Tiers
        requires { IsSome (period_at self.now.energy period) }
        ensures value { ForSome (period_at self.now.energy period) (λ found. result.now ≡ found.tiers) }
        ensures prices { All (λ tier. IsWithin (3 * 10 ^ 21) tier.price) result.now }
    {
        match self.energy(period) {
            Some(found) => &found.tiers,
            None => unreachable!(),
        }
    }

    /// Whether an energy period has two tiers or more.
    pub fn is_tiered(&self, period: u8) -> bool
        ensures { result ≡ tiered_at self.now period }
    {
        match self.energy(period) {
            Some(found) => found.tiers.count() > 1,
            None => false,
        }
    }

    /// Whether no energy period has two tiers or more: then each period has one price.
    pub fn is_untiered(&self) -> bool
        ensures { IsTrue result ↔ (tiered self.now ≡ []) }
    {
        for period in 0..36u8 {
            if self.is_tiered(period) {
                return false;
            }
        }
        true
    }

    /// The groups of intervals that are charged for their highest demand: one for each demand period that charges something, in order of
    /// their numbers, and behind them the group of the whole month, where flat demand is charged.
    pub fn groups(&self) -> &[Peak]
        ensures value { result.now ≡ self.now.peaks }
        ensures range { IsInRange self.now }
    {
        self.peaks.as_slice()
    }

    /// The demand period for which a group stands, or None where it is the group of the whole month or there is no such group.
    pub fn group_period(&self, group: u8) -> Option<u8>
        ensures { result ≡ slice_get self.now.demand_groups group }
    {
        self.demand_groups.as_slice().get(group as usize).copied()
    }

    /// Whether the interval is in the group of that number.
    pub fn in_group(&self, t: u32, group: u8) -> bool
        requires { t < length self.now.net }
        ensures { result ≡ is_in_group self.now t group }
    {
        if group as usize >= self.peaks.len() {
            return false;
        }
        match self.group_period(group) {
            Some(period) => period == self.demands.as_slice()[t as usize],
            None => true,
        }
    }
}
