//! Demand and flat demand of a record: units, hours and the tiers of periods.

ghost use Rattle.std.specs.Prelude.{◌≡◌, ℕ, ◌≤◌, ◌∷◌, [], true, IfOk, IfSome, All};
ghost use Rattle.std.specs.Option.{ForSome};
ghost use Rattle.d_tariff.specs.Terms.{HasDemandPrices};
ghost use Rattle.d_urdb.specs.Checks.{Checks};
ghost use Rattle.d_urdb.specs.Demand as spec;
ghost use Rattle.d_urdb.specs.Energy.{HasRisingPeriods};
ghost use Rattle.d_urdb.specs.Numbers.{Reads};
ghost use Rattle.d_urdb.specs.Periods.{is_demand};
ghost use Rattle.d_urdb.specs.Shown.{row_of};
ghost use Rattle.d_urdb.specs.Values.{HasRisingEnds, HasSoundTiers, HasSoundPrices};

use crate::cause::Cause;
use crate::checks::is_unit;
use crate::fault::Refused;
use crate::row::Record;
use d_cal::Schedule;
use d_columns::{PERIODS, Structure};
use d_num::NoMemory;
use d_tariff::TierLists;
use d_tier::Tiers;
use std::alloc::Global;

impl<'a> Record<'a> {
    /// Tests that the unit in the column of that name, which is in small letters, is kW or none.
    pub(crate) fn check_demand_unit(&self, name: &[u8]) -> Result<(), Refused>
        ensures { Checks (λ reader. spec.demand_unit_refusal (row_of self.now) name.now ∷ []) result }
    {
        if !is_unit(self.cells.named_cell(name), b"kw") {
            let column = self.cells.position(name);
            return Err(self.refusal(Cause::DemandUnit, column, 0));
        }
        Ok(())
    }

    /// The hours of the schedules of demand, or why there are none. An hour may be in a period without a tier.
    pub(crate) fn demand_hours(&self) -> Result<Schedule, Refused>
        ensures refusals { Checks (λ reader. spec.demand_hours_refusals reader (row_of self.now)) result }
        ensures hours { IfOk result (spec.AreDemandHours (row_of self.now)) }
    {
        let weekday = self.hours(b"demandweekdayschedule")?;
        let weekend = self.hours(b"demandweekendschedule")?;
        Ok(Schedule { weekday, weekend })
    }

    /// The tiers of all periods of demand by their numbers. Ends are in W, prices in units of 10^-18 USD per kW, none below 0.
    pub(crate) fn demand_periods(
        &self,
        alloc: Global,
        structure: Structure,
    ) -> Result<TierLists, NoMemory>
        requires rising { HasRisingPeriods (row_of self.now) structure }
        requires prices { HasSoundPrices (row_of self.now) structure }
        requires demand { is_demand structure ≡ true }
        ensures value { IfOk result (Reads (λ reader. spec.demand_periods reader (row_of self.now) structure)) }
        ensures prices { IfOk result (λ lists. All (λ tiers. ForSome tiers HasDemandPrices) lists) }
    {
        let mut lists = TierLists::new(alloc);
        for period in 0..PERIODS {
            lists.add(self.demand_tiers(structure, period))?;
        }
        Ok(lists)
    }

    /// The tiers of a period of demand, or None where it has none.
    fn demand_tiers(&self, structure: Structure, period: u8) -> Option<Tiers>
        requires period { period ≤ 35 }
        requires rising { HasRisingEnds (row_of self.now) structure period }
        requires prices { HasSoundTiers (row_of self.now) structure period }
        requires demand { is_demand structure ≡ true }
        ensures value { Reads (λ reader. spec.demand_tiers reader (row_of self.now) structure period) result }
        ensures prices { IfSome result HasDemandPrices }
    {
        if !self.cells.has_tier(structure, period, 0) {
            return None;
        }
        Some(self.tiers(structure, period))
    }
}
