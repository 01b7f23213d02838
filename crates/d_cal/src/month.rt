//! A month of the civil calendar.

ghost use Rattle.std.specs.Prelude.{◌≡◌, ◌↔◌, IsTrue, IsSome, IfSome};
ghost use Rattle.jiff_core.specs.Calendar.{days_in_month, days_from_civil, weekday_number};
ghost use Rattle.d_cal.specs.Calendar.{IsMonth, IsDayOf, IsWeekend};

use jiff::civil::date;

/// A month of the years 1 to 9999.
#[derive(Clone, Copy, PartialEq, Eq)]
pub struct Month {
    /// From 1 to 9999.
    pub year: i16,
    /// From 1 for January to 12.
    pub number: u8,
    pub ghost in_range: { IsMonth year number },
}

impl Month {
    /// The month of that number, from 1 for January, or None exactly where the year isn't from 1 to 9999 or the number isn't from 1 to 12.
    pub fn new(year: i16, number: u8) -> Option<Month>
        ensures range { IsSome result ↔ IsMonth year number }
        ensures year { IfSome result (λ m. m.year ≡ year) }
        ensures number { IfSome result (λ m. m.number ≡ number) }
    {
        if year >= 1 && year <= 9999 && number >= 1 && number <= 12 {
            Some(Month { year, number })
        } else {
            None
        }
    }

    /// Its year.
    pub fn year(self) -> i16
        ensures { result ≡ self.year }
    {
        self.year
    }

    /// Its number in the year, from 1 for January.
    pub fn number(self) -> u8
        ensures { result ≡ self.number }
    {
        self.number
    }

    /// The number of its days.
    pub fn days(self) -> u8
        ensures { result ≡ days_in_month self.year self.number }
    {
        date(self.year, self.number as i8, 1).days_in_month() as u8
    }

    /// Whether that day of it, from 1, is a Saturday or a Sunday.
    #[tactic(auto, using(crate::proofs::WeekdayFacts::weekend_is))]
    pub fn weekend(self, day: u8) -> bool
        requires { IsDayOf self.year self.number day }
        ensures { IsTrue result ↔ IsWeekend self.year self.number day }
    {
        self.weekday(day) >= 5
    }

    /// The weekday of that day of it, from 0 for Monday to 6 for Sunday.
    fn weekday(self, day: u8) -> u8
        requires { IsDayOf self.year self.number day }
        ensures { result ≡ weekday_number (days_from_civil self.year self.number day) }
    {
        date(self.year, self.number as i8, day as i8)
            .weekday()
            .index()
    }
}
