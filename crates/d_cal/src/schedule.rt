//! Which period of a tariff holds at an hour.

ghost use Rattle.std.specs.Prelude.{◌≡◌, ◌↔◌, ◌<◌, ◌≤◌, IsTrue, IsSome, IfSome};
ghost use Rattle.d_cal.specs.Calendar.{IsDayOf};
ghost use Rattle.d_cal.specs.Schedules.{ArePeriods, HasPeriods, period_of};

use crate::month::Month;

const LAST_PERIOD: u8 = 35;

/// The periods of a tariff, from 0 to 35, by month and hour, for weekdays and for weekends: a row a month with January first, in it
/// an entry an hour with midnight first.
#[derive(Clone, Copy)]
pub struct Schedule {
    /// The grid of all days from Monday to Friday.
    pub weekday: [[u8; 24]; 12],
    /// The grid of Saturdays and Sundays.
    pub weekend: [[u8; 24]; 12],
    pub ghost weekday_in_range: { HasPeriods weekday },
    pub ghost weekend_in_range: { HasPeriods weekend },
}

impl Schedule {
    /// The schedule of both grids, or None exactly where an entry is above 35.
    pub fn new(weekday: [[u8; 24]; 12], weekend: [[u8; 24]; 12]) -> Option<Schedule>
        ensures range { IsSome result ↔ (HasPeriods weekday × HasPeriods weekend) }
        ensures weekday { IfSome result (λ s. s.weekday ≡ weekday) }
        ensures weekend { IfSome result (λ s. s.weekend ≡ weekend) }
    {
        if has_periods(&weekday) && has_periods(&weekend) {
            Some(Schedule { weekday, weekend })
        } else {
            None
        }
    }

    /// The grid of all days from Monday to Friday.
    pub fn weekday(&self) -> &[[u8; 24]; 12]
        ensures { result.now ≡ self.now.weekday }
    {
        &self.weekday
    }

    /// The grid of Saturdays and Sundays.
    pub fn weekend(&self) -> &[[u8; 24]; 12]
        ensures { result.now ≡ self.now.weekend }
    {
        &self.weekend
    }

    /// The period, from 0 to 35, in an hour, from 0, of that day of the month, from 1.
    pub fn period_at(&self, month: Month, day: u8, hour: u8) -> u8
        requires day { IsDayOf month.year month.number day }
        requires hour { hour < 24 }
        ensures period { result ≡ period_of self.now.weekday self.now.weekend month.year month.number day hour }
        ensures range { result ≤ 35 }
    {
        let grid = if month.weekend(day) {
            &self.weekend
        } else {
            &self.weekday
        };
        grid[(month.number - 1) as usize][hour as usize]
    }
}

/// Whether each entry of the grid is a period.
fn has_periods(grid: &[[u8; 24]; 12]) -> bool
    ensures { IsTrue result ↔ HasPeriods grid.now }
{
    grid.iter().all(|row| are_periods(row))
}

/// Whether each entry of the row is a period.
fn are_periods(row: &[u8; 24]) -> bool
    ensures { IsTrue result ↔ ArePeriods row.now }
{
    row.iter().all(|&period| period <= LAST_PERIOD)
}
