//! What is charged for a tally.

ghost use Rattle.std.specs.Prelude.{◌≡◌, ◌<◌, pos, slice_index_or};

use crate::problem::Problem;
use crate::tally::{PERIODS, Tally};
use d_num::{Money, Watt, Wh};

impl Problem {
    ghost use Rattle.std.specs.Prelude.{◌≡◌, ℕ, ◌^◌, ◌<◌, length};
    ghost use Rattle.d_num.specs.Amount.{IsWithin};
    ghost use Rattle.d_num.specs.Sums.{sum_of_first};
    ghost use Rattle.d_bill.specs.Inputs.{IsInRange};
    ghost use Rattle.d_bill.specs.Totals.{IsTallied};
    ghost use Rattle.d_bill.specs.Bills.{sum_of, bill_by, period_charge, group_charge, group_charges};
    ghost use Rattle.d_bill.specs.Counting.{total_limit, group_limit};

    /// The bill of a tally that `walk` or `metered` of this problem wrote: the sum, or the minimum (the record's `mincharge`) where that is
    /// greater. Without a minimum it may be below 0. It is at most 10^14 USD in size.
    pub fn bill(&self, tally: &Tally) -> Money
        requires { IsTallied self.now tally.now }
        ensures value { result ≡ bill_by self.now tally.now }
        ensures range { IsWithin (10 ^ 35) result }
    {
        let sum = self.sum(tally);
        match self.minimum {
            Some(minimum) => minimum.greatest(sum),
            None => sum,
        }
    }

    /// What is charged for a tally that `walk` or `metered` of this problem wrote: the fixed charge, what the energy periods charge for
    /// their imports and the groups for their highest demands, less what is paid for the export of each interval, as SAM's net billing has
    /// it. It is at most 10^14 USD in size.
    pub fn sum(&self, tally: &Tally) -> Money
        requires { IsTallied self.now tally.now }
        ensures value { result ≡ sum_of self.now tally.now }
        ensures range { IsWithin (10 ^ 35) result }
    {
        let periods = self.period_charges(tally);
        let groups = self.group_charges(tally);
        self.fixed().plus(periods).minus(tally.credit).plus(groups)
    }

    /// What all periods charge.
    fn period_charges(&self, tally: &Tally) -> Money
        requires { IsTallied self.now tally.now }
        ensures value { result ≡ sum_of_first 36 (period_charge self.now tally.now) }
        ensures small { (number : ℕ) → number < 36 → IsWithin (total_limit tally.now number) (period_charge self.now tally.now number) }
    {
        let mut sum = Money::new(0).unwrap();
        for period in 0..PERIODS {
            sum = sum.plus(self.period_charge(tally, period));
        }
        sum
    }

    /// What a period charges for its import.
    pub fn period_charge(&self, tally: &Tally, period: u8) -> Money
        requires tally { IsTallied self.now tally.now }
        requires period { period < 36 }
        ensures range { IsInRange self.now }
        ensures value { result ≡ period_charge self.now tally.now period }
        ensures small { IsWithin (total_limit tally.now period) result }
    {
        let total = total_of(tally, period).value();
        match self.energy(period) {
            Some(found) => found.tiers.charge(total),
            None => Money::new(0).unwrap(),
        }
    }

    /// What all groups charge.
    fn group_charges(&self, tally: &Tally) -> Money
        requires { IsTallied self.now tally.now }
        ensures value { result ≡ group_charges self.now tally.now }
        ensures small { (group : ℕ) → group < length self.now.peaks → IsWithin (group_limit self.now group) (group_charge self.now tally.now group) }
    {
        let mut sum = Money::new(0).unwrap();
        for group in 0..self.groups().len() {
            sum = sum.plus(self.group_charge(tally, group));
        }
        sum
    }

    /// What a group charges for its highest demand.
    pub fn group_charge(&self, tally: &Tally, group: usize) -> Money
        requires tally { IsTallied self.now tally.now }
        requires group { group < length self.now.peaks }
        ensures value { result ≡ group_charge self.now tally.now group }
        ensures small { IsWithin (group_limit self.now group) result }
    {
        let peak = &self.groups()[group];
        // shows the floor's range
        let _floor = peak.floor.value();
        peak.charge(peak_of(tally, group))
    }
}

/// The import of a period.
fn total_of(tally: &Tally, period: u8) -> Wh
    requires { period < 36 }
    ensures { result ≡ slice_index_or tally.now.totals period (pos 0) }
{
    tally.totals[period as usize]
}

/// The highest demand of a group.
fn peak_of(tally: &Tally, group: usize) -> Watt
    requires { group < 37 }
    ensures { result ≡ slice_index_or tally.now.peaks group (pos 0) }
{
    tally.peaks[group]
}
