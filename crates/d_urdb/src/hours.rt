//! The energy schedules of a record.

ghost use Rattle.std.specs.Prelude.{◌≡◌, ◌≤◌, ◌==◌, [], ◌∷◌, ◌&&◌, ◌||◌, not, IfOk, All};
ghost use Rattle.std.specs.List.{list_any};
ghost use Rattle.d_urdb.specs.Shown.{row_of};
ghost use Rattle.d_urdb.specs.Numbers.{Reads};
ghost use Rattle.d_columns.specs.Tiers.{has_tier};
ghost use Rattle.d_urdb.specs.Checks.{Checks};
ghost use Rattle.d_urdb.specs.Hours as spec;
ghost use Rattle.d_urdb.specs.Energy.{AreEnergyHours};

use crate::cause::Cause;
use crate::fault::Refused;
use crate::row::Record;
use d_cal::Schedule;
use d_columns::{PERIODS, Structure};
use d_text::read_grid;

impl<'a> Record<'a> {
    /// The hours of the energy schedules, each in a period that has a tier, or why there are none.
    pub(crate) fn energy_hours(&self) -> Result<Schedule, Refused>
        ensures refusals { Checks (λ reader. spec.hours_refusals reader (row_of self.now)) result }
        ensures hours { IfOk result (AreEnergyHours (row_of self.now)) }
    {
        let weekday = self.hours(b"energyweekdayschedule")?;
        let weekend = self.hours(b"energyweekendschedule")?;
        self.check_missing(&weekday, &weekend)?;
        Ok(Schedule { weekday, weekend })
    }

    /// The period of each hour in the column of that name, which is in small letters, or why its cell is no grid. A blank cell is
    /// period 0 everywhere.
    pub(crate) fn hours(&self, name: &[u8]) -> Result<[[u8; 24]; 12], Refused>
        ensures refusals { Checks (λ reader. spec.grid_refusal reader (row_of self.now) name.now ∷ []) result }
        ensures value { IfOk result (Reads (λ reader. spec.hours_in reader (row_of self.now) name.now)) }
        ensures range { IfOk result (All (All (λ period. period ≤ 35))) }
    {
        let mut hours = [[0; 24]; 12];
        let cell = self.cells.named_cell(name);
        if cell.is_empty() {
            return Ok(hours);
        }
        match read_grid(cell, &mut hours) {
            Ok(()) => Ok(hours),
            Err(fault) => {
                let column = self.cells.position(name);
                Err(self.refusal(Cause::Grid, column, fault.place as u64))
            }
        }
    }

    /// Tests that each hour is in a period that has a tier.
    fn check_missing(
        &self,
        weekday: &[[u8; 24]; 12],
        weekend: &[[u8; 24]; 12],
    ) -> Result<(), Refused>
        ensures { Checks (λ reader. spec.missing_refusals (row_of self.now) weekday.now weekend.now) result }
    {
        for period in 0..PERIODS {
            if self.is_missing(period, weekday, weekend) {
                return Err(self.refusal(Cause::EnergyMissing, None, u64::from(period)));
            }
        }
        Ok(())
    }

    /// Whether an hour is in this period, and the period has no tier.
    fn is_missing(&self, period: u8, weekday: &[[u8; 24]; 12], weekend: &[[u8; 24]; 12]) -> bool
        requires { period ≤ 35 }
        ensures { result ≡ spec.is_missing (row_of self.now) weekday.now weekend.now period }
    {
        (occurs(period, weekday) || occurs(period, weekend))
            && !self.cells.has_tier(Structure::Energy, period, 0)
    }
}

/// Whether an hour is in this period.
fn occurs(period: u8, hours: &[[u8; 24]; 12]) -> bool
    ensures { result ≡ spec.occurs_in period hours.now }
{
    hours.iter().any(|month| is_in(period, month))
}

/// Whether an hour of a month is in this period.
fn is_in(period: u8, month: &[u8; 24]) -> bool
    ensures { result ≡ list_any (λ entry. entry == period) month.now }
{
    month.iter().any(|entry| *entry == period)
}
