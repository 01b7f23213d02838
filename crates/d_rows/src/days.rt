//! The rows at day ends, and those of one day between its ends.

ghost use Rattle.std.specs.Prelude.{◌≡◌, ◌<◌, ◌≤◌, ◌+◌, ◌-◌, ◌^◌, length, replicate, IfOk};
ghost use Rattle.std.specs.Borrow.{sem};
ghost use Rattle.d_num.specs.declared.pot.Pot.TheVariants.{NoWay};
ghost use Rattle.d_rows.specs.Days.{day_row, place as place_of};
ghost use Rattle.d_rows.specs.DayLending.{LendsDayRow};

use crate::packed::Packed;
use crate::rows::Rows;
use d_num::NoMemory;
use std::alloc::Global;
use std::marker::Model;

/// Where row i of a day stands among all rows: the kept ones come first, and then the window.
fn place(days: usize, per_day: usize, day: usize, i: usize) -> usize
    requires small { days + i < 2 ^ 33 }
    requires day { day < days }
    ensures { result ≡ place_of days per_day day i }
{
    if i == 0 {
        day
    } else if i == per_day {
        day + 1
    } else {
        days + i
    }
}

/// Rows of costs for a month of days: a kept row for the beginning of each day and one for the end of the last, and a window of the
/// rows of one day between its ends.
///
/// Each row has one cost a level, the least level's first. A contract sees it as the lists of the kept rows and of the window's.
/// Which day's rows the window holds is for the caller to know.
#[derive(Drop)]
pub struct DayLayers {
    days: u32,
    per_day: u32,
    rows: Rows,
}

impl Model for DayLayers {
    ghost use Rattle.std.specs.Prelude.{◌≡◌, ◌≤◌, ◌+◌, length, take, drop};
    ghost use Rattle.d_rows.specs.Days.{DayRows};

    ghost Value = { DayRows };

    ghost view = { λ a. record { kept = take (a.days + 1) a.rows; window = drop (a.days + 1) a.rows } };

    ghost invariant = { λ a. (length a.rows ≡ a.days + a.per_day) × (2 ≤ a.per_day) };
}

impl DayLayers {
    /// Layers for so many days of so many intervals, at least two, with so many levels; no way is known in any of them. It answers
    /// `NoMemory` where memory ran out.
    pub fn make(alloc: Global, days: u32, per_day: u32, levels: u16) -> Result<DayLayers, NoMemory>
        requires { 2 ≤ per_day }
        ensures { IfOk result (λ a. (a.kept ≡ replicate (days + 1) (replicate levels NoWay))
            × (a.window ≡ replicate (per_day - 1) (replicate levels NoWay))) }
    {
        let rows = Rows::make(alloc, days as usize + per_day as usize, levels)?;
        Ok(DayLayers {
            days,
            per_day,
            rows,
        })
    }

    /// How many days there are.
    pub fn days(&self) -> u32
        ensures { length self.now.kept ≡ result + 1 }
    {
        self.days
    }

    /// How many intervals a day has.
    pub fn per_day(&self) -> u32
        ensures { length self.now.window + 1 ≡ result }
    {
        self.per_day
    }

    /// Row i of a day, from 0 to the count of its intervals: the first and the last are kept, and those between them are the window's.
    pub fn row(&self, day: u32, i: u32) -> &[Packed]
        requires day { day + 1 < length self.now.kept }
        requires i { i ≤ length self.now.window + 1 }
        ensures { result.now ≡ day_row self.now day i }
    {
        let at = place(
            self.days as usize,
            self.per_day as usize,
            day as usize,
            i as usize,
        );
        self.rows.row_at(at)
    }

    /// Row i of a day, which is not its last, for writing beside row i + 1 for reading.
    pub fn pair_mut(&mut self, day: u32, i: u32) -> (&mut [Packed], &[Packed])
        requires day { day + 1 < length self.old.kept }
        requires i { i ≤ length self.old.window }
        ensures* writes_back { sem 𝓛 (LendsDayRow self.entry day i result.0) }
        ensures row { result.0.now ≡ day_row self.old day i }
        ensures next { result.1.now ≡ day_row self.old day (i + 1) }
    {
        let days = self.days as usize;
        let per_day = self.per_day as usize;
        let write = place(days, per_day, day as usize, i as usize);
        let read = place(days, per_day, day as usize, i as usize + 1);
        self.rows.pair_at(write, read)
    }

    /// The last kept row, that of the end of the last day, for writing.
    pub fn last_mut(&mut self) -> &mut [Packed]
        requires { 0 < length self.old.kept }
        ensures* writes_back { sem 𝓛 (LendsDayRow self.entry (length self.old.kept - 1) 0 result) }
        ensures row { result.now ≡ day_row self.old (length self.old.kept - 1) 0 }
    {
        let last = self.days as usize;
        self.rows.row_mut(last)
    }
}
