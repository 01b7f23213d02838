//! The reader of a record.

ghost use Rattle.std.specs.Prelude.{◌≡◌, ◌≤◌, Ok, Err, IfOk, IfErr, OnOk, All};
ghost use Rattle.d_tariff.specs.Shown.{terms_of};
ghost use Rattle.d_urdb.specs.Shown.{row_of};
ghost use Rattle.d_urdb.specs.Accepted.{IsAccepted};
ghost use Rattle.d_urdb.specs.Checks.{Checks, ChecksOrNot};
ghost use Rattle.d_urdb.specs.Demand.{AreDemandHours};
ghost use Rattle.d_urdb.specs.Energy.{HasRisingPeriods, AreEnergyHours};
ghost use Rattle.d_urdb.specs.FlatMonths.{flat_months};
ghost use Rattle.d_urdb.specs.Numbers.{Reads};
ghost use Rattle.d_urdb.specs.Record.{IsOutcome, row_refusals, energy_section, demand_section, flat_section, adjustment_section};
ghost use Rattle.d_urdb.specs.Values.{HasSoundPrices};
ghost use Rattle.d_urdb.specs.declared.fault.RecordFault.TheVariants as variant;

use crate::cause::Cause;
use crate::fault::{RecordFault, Refused};
use crate::label::find_row;
use crate::row::Record;
use crate::rule::RuleChoice;
use crate::terms::Accepted;
use d_cal::Schedule;
use d_columns::{Cells, Structure};
use d_table::Table;
use d_tariff::Tariff;
use std::alloc::Global;

/// The tariff of the record with this label, or why it is refused.
///
/// The table is a record file's: columns are found by the names of the rate database's bulk file, in letters of either case, and of two
/// columns of one name the first counts. It may hold other records, which are not looked at. Prices are in units of 10^-18 USD per kWh or
/// kW, ends of tiers in Wh or W, fractions in units of 10^-20, charges in units of 10^-21 USD. The positions of filled columns that
/// nothing is read from are listed.
///
/// A refusal has a number, the position of the column that it names, or the number of columns where it names none, and a detail. The first
/// of all that apply is answered, in this order: no column `label` (3), no row with the label (1), or several (2); a rule that isn't
/// planned (13, 14) or isn't known (21), unless net billing is chosen; for each energy period a missing tier (7), a number that can't be
/// read (4), a unit (9), the order of ends (8), differing sell rates (10); a schedule that is no grid (5); an hour in a period without a
/// tier (6); for each demand period 7, 4, 8 and a price below 0 (11), then the unit of demand (12) and its schedules (5); the same for flat
/// demand and its months; ratchets that are no list (5), can't be read (4) or are below 0 (22); the fixed charge (4) and its unit (20); the
/// minimum (4), its unit (20), a minimum by the year (18), and the annual minimum (4, 18); coincident demand (4, 16), reactive power (4, 17)
/// and fuel adjustments (5, 4, 19) other than 0. What each means, and their order, are our own rules.
pub fn read_record(
    alloc: Global,
    table: &Table,
    label: &[u8],
    rule: RuleChoice,
) -> Result<Tariff, RecordFault>
    ensures tariff { IfOk result (λ tariff. IsOutcome table.now label.now rule (Ok (terms_of tariff))) }
    ensures refused { IfErr result (λ fault. (refused : _) → fault ≡ variant.Refused refused → IsOutcome table.now label.now rule (Err refused)) }
{
    let row = find_row(table, label)?;
    let cells = Cells::new(alloc, table, row)?;
    let record = Record { cells };
    let accepted = record.check_row(alloc, rule)?;
    let tariff = record.tariff(alloc, rule, accepted)?;
    Ok(tariff)
}

impl<'a> Record<'a> {
    /// Tests all rules of the row, in order, and answers what was read on the way.
    fn check_row(&self, alloc: Global, rule: RuleChoice) -> Result<Accepted, RecordFault>
        ensures refusals { ChecksOrNot (λ reader. row_refusals reader (row_of self.now) rule) result }
        ensures accepted { IfOk result (IsAccepted (row_of self.now)) }
    {
        let energy_hours = self.check_energy(alloc, rule)?;
        let demand_hours = self.check_demand(alloc)?;
        let flat_months = self.check_flat_demand(alloc)?;
        let ratchet = self.ratchets()?;
        let fixed = self.fixed_charge()?;
        let minimum = self.minimum_charge()?;
        self.check_zero(b"annualmincharge", Cause::AnnualMinimum)?;
        self.check_adjustments()?;
        Ok(Accepted {
            energy_hours,
            demand_hours,
            flat_months,
            ratchet,
            fixed,
            minimum,
        })
    }

    /// Tests the rule of billing, the energy periods and their hours, and answers the hours.
    fn check_energy(&self, alloc: Global, rule: RuleChoice) -> Result<Schedule, RecordFault>
        ensures refusals { ChecksOrNot (λ reader. energy_section reader (row_of self.now) rule) result }
        ensures rising { OnOk result (HasRisingPeriods (row_of self.now) Structure.Energy) }
        ensures hours { IfOk result (AreEnergyHours (row_of self.now)) }
    {
        self.check_rule(rule)?;
        self.check_periods(alloc, Structure::Energy)?;
        let hours = self.energy_hours()?;
        Ok(hours)
    }

    /// Tests the demand periods, their unit and their hours, and answers the hours.
    fn check_demand(&self, alloc: Global) -> Result<Schedule, RecordFault>
        ensures refusals { ChecksOrNot (λ reader. demand_section reader (row_of self.now)) result }
        ensures rising { OnOk result (HasRisingPeriods (row_of self.now) Structure.Demand) }
        ensures prices { OnOk result (HasSoundPrices (row_of self.now) Structure.Demand) }
        ensures hours { IfOk result (AreDemandHours (row_of self.now)) }
    {
        self.check_periods(alloc, Structure::Demand)?;
        self.check_demand_unit(b"demandrateunit")?;
        let hours = self.demand_hours()?;
        Ok(hours)
    }

    /// Tests the flat demand periods, their unit and their months, and answers the months.
    fn check_flat_demand(&self, alloc: Global) -> Result<[u8; 12], RecordFault>
        ensures refusals { ChecksOrNot (λ reader. flat_section reader (row_of self.now)) result }
        ensures rising { OnOk result (HasRisingPeriods (row_of self.now) Structure.FlatDemand) }
        ensures prices { OnOk result (HasSoundPrices (row_of self.now) Structure.FlatDemand) }
        ensures value { IfOk result (Reads (λ reader. flat_months reader (row_of self.now))) }
        ensures range { IfOk result (All (λ number. number ≤ 35)) }
    {
        self.check_periods(alloc, Structure::FlatDemand)?;
        self.check_demand_unit(b"flatdemandunit")?;
        let months = self.flat_months()?;
        Ok(months)
    }

    /// Tests that nothing is said of what isn't billed.
    fn check_adjustments(&self) -> Result<(), Refused>
        ensures { Checks (λ reader. adjustment_section reader (row_of self.now)) result }
    {
        self.check_coincident()?;
        self.check_zero(b"demandreactivepowercharge", Cause::Reactive)?;
        self.check_fuel()
    }
}
