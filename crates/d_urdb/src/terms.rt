//! The tariff that a record's row says.

ghost use Rattle.std.specs.Prelude.{◌≡◌, IfOk};
ghost use Rattle.d_tariff.specs.Shown.{terms_of};
ghost use Rattle.d_urdb.specs.Accepted.{IsAccepted};
ghost use Rattle.d_urdb.specs.Numbers.{Reads};
ghost use Rattle.d_urdb.specs.Shown.{row_of};
ghost use Rattle.d_urdb.specs.Record.{row_terms};

use crate::row::Record;
use crate::rule::RuleChoice;
use d_cal::Schedule;
use d_columns::Structure;
use d_num::NoMemory;
use d_tariff::{Charge, Tariff};
use std::alloc::Global;

/// What was read of a row while its rules were tested.
#[derive(Drop)]
pub(crate) struct Accepted {
    pub energy_hours: Schedule,
    pub demand_hours: Schedule,
    pub flat_months: [u8; 12],
    pub ratchet: [u128; 12],
    pub fixed: Charge,
    pub minimum: Option<Charge>,
}

impl<'a> Record<'a> {
    /// The tariff of the row, of which this was read.
    pub(crate) fn tariff(
        &self,
        alloc: Global,
        rule: RuleChoice,
        accepted: Accepted,
    ) -> Result<Tariff, NoMemory>
        requires { IsAccepted (row_of self.now) accepted }
        ensures { IfOk result (λ tariff. Reads (λ reader. row_terms reader (row_of self.now) rule) (terms_of tariff)) }
    {
        Ok(Tariff {
            energy: self.energy_periods(alloc)?,
            demand: self.demand_periods(alloc, Structure::Demand)?,
            flat: self.demand_periods(alloc, Structure::FlatDemand)?,
            energy_hours: accepted.energy_hours,
            demand_hours: accepted.demand_hours,
            flat_months: accepted.flat_months,
            ratchet: accepted.ratchet,
            fixed: accepted.fixed,
            minimum: accepted.minimum,
            hourly: self.is_hourly(rule),
            ignored: self.ignored_columns(alloc)?,
        })
    }
}
