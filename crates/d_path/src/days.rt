//! The least costs at day ends and on one day, and the first cheapest way over them.

ghost use Rattle.std.specs.Prelude.{◌≡◌, ◌≢◌, ◌↔◌, ◌+◌, ◌-◌, ◌*◌, ◌<◌, ◌≤◌, [], length, slice_index_or, IsTrue, IsFalse};
ghost use Rattle.d_num.specs.declared.pot.Pot.TheVariants.{NoWay};
ghost use Rattle.d_path.specs.Arcs.{arcs_of, intervals_of, IsSound};
ghost use Rattle.d_path.specs.Cheapest.{HasCheapest, IsFirstCheapest, entry};
ghost use Rattle.d_path.specs.Days.{IsOnWay, per_day_of, FitsDays, AreKeptCheapest, AreInnerCheapest, WritesKept};

use crate::first::first_move;
use crate::least::{LEVELS, fill_last, fill_row, levels_of};
use crate::ways::Ways;
use d_num::Pot;
use d_rows::DayLayers;

/// Makes the window the least costs inside this day, where the kept row at its end has those there. The kept rows stay.
///
/// Each entry becomes the least cost from its level at its interval to an allowed end, over all ways, or no way where none leads there.
/// It takes no memory.
pub fn fill_day(ways: &Ways, day: u32, layers: &mut DayLayers)
    requires sound { IsSound (arcs_of ways.now) }
    requires fits { FitsDays (arcs_of ways.now) layers.old }
    requires day { day + 1 < length layers.old.kept }
    requires next_cheapest { HasCheapest (arcs_of ways.now) ((day + 1) * per_day_of layers.old)
        (slice_index_or layers.old.kept (day + 1) []) }
    ensures kept { layers.new.kept ≡ layers.old.kept }
    ensures fits { FitsDays (arcs_of ways.now) layers.new }
    ensures long { length layers.new.window ≡ length layers.old.window }
    ensures cheapest { AreInnerCheapest (arcs_of ways.now) day layers.new }
{
    let mut scratch = [0; LEVELS];
    let sums = &mut scratch[..levels_of(ways)];
    let per_day = layers.per_day();
    for i in (1..per_day).rev() {
        let t = day as usize * per_day as usize + i as usize;
        let (row, next) = layers.pair_mut(day, i);
        fill_row(ways, t, sums, row, next);
    }
}

/// Makes the row at the beginning of this day the least costs there, where the rows between its ends have them.
fn fill_start(ways: &Ways, day: u32, layers: &mut DayLayers)
    requires sound { IsSound (arcs_of ways.now) }
    requires fits { FitsDays (arcs_of ways.now) layers.old }
    requires day { day + 1 < length layers.old.kept }
    requires next_cheapest { HasCheapest (arcs_of ways.now) ((day + 1) * per_day_of layers.old)
        (slice_index_or layers.old.kept (day + 1) []) }
    requires inner { AreInnerCheapest (arcs_of ways.now) day layers.old }
    ensures { WritesKept (arcs_of ways.now) (day * per_day_of layers.old) day layers.old layers.new }
{
    let mut scratch = [0; LEVELS];
    let sums = &mut scratch[..levels_of(ways)];
    let per_day = layers.per_day();
    let t = day as usize * per_day as usize;
    let (row, next) = layers.pair_mut(day, 0);
    fill_row(ways, t, sums, row, next);
}

/// Makes the last kept row the least costs at the month's end.
fn fill_month_end(ways: &Ways, layers: &mut DayLayers)
    requires sound { IsSound (arcs_of ways.now) }
    requires fits { FitsDays (arcs_of ways.now) layers.old }
    ensures { WritesKept (arcs_of ways.now) (intervals_of (arcs_of ways.now)) (length layers.old.kept - 1)
        layers.old layers.new }
{
    fill_last(ways, layers.last_mut());
}

/// Makes each kept row the least costs at the beginning of its day, and the last one those at the month's end: each entry is the least
/// cost from its level to an allowed end, over all ways, or no way where none leads there. The window is written over.
///
/// The layers have a row for each day and one more, one column a level, and as many intervals a day as make up those of the ways. There
/// are 1 to 64 moves and at most 10^4 intervals, and each cost is no way or at most 10^32 units in size, so no sum leaves the range of
/// money. It takes no memory.
pub fn backward_days(ways: &Ways, layers: &mut DayLayers)
    requires sound { IsSound (arcs_of ways.now) }
    requires fits { FitsDays (arcs_of ways.now) layers.old }
    ensures fits { FitsDays (arcs_of ways.now) layers.new }
    ensures days { length layers.new.kept ≡ length layers.old.kept }
    ensures long { length layers.new.window ≡ length layers.old.window }
    ensures cheapest { AreKeptCheapest (arcs_of ways.now) layers.new }
{
    fill_month_end(ways, layers);
    let days = layers.days();
    for day in (0..days).rev() {
        fill_day(ways, day, layers);
        fill_start(ways, day, layers);
    }
}

/// Goes on over this day from this level, and gives the level at its end. The schedule gets the moves of the day.
fn walk_day(ways: &Ways, day: u32, from: u8, layers: &DayLayers, schedule: &mut [u8]) -> u8
    requires sound { IsSound (arcs_of ways.now) }
    requires fits { FitsDays (arcs_of ways.now) layers.now }
    requires day { day + 1 < length layers.now.kept }
    requires next_cheapest { HasCheapest (arcs_of ways.now) ((day + 1) * per_day_of layers.now)
        (slice_index_or layers.now.kept (day + 1) []) }
    requires inner { AreInnerCheapest (arcs_of ways.now) day layers.now }
    requires room { length schedule.old ≡ intervals_of (arcs_of ways.now) }
    requires on { IsOnWay (arcs_of ways.now) (day * per_day_of layers.now) from schedule.old }
    ensures { IsOnWay (arcs_of ways.now) ((day + 1) * per_day_of layers.now) result schedule.new }
{
    let per_day = layers.per_day();
    let begin = day as usize * per_day as usize;
    let mut level = from;
    for i in 0..per_day {
        let t = begin + i as usize;
        let taken = first_move(ways, t, level, layers.row(day, i + 1));
        schedule[t] = taken.number;
        level = taken.level;
    }
    level
}

/// Whether a way leads from the start to an allowed end. If so the schedule becomes the numbers of the moves of the cheapest way,
/// of several the first in the order of lists of numbers; else it stays as it was. The kept rows stay in both cases.
///
/// The kept rows are those that `backward_days` gave for these ways; the window is written over. The schedule has one entry an
/// interval. It takes no memory.
pub fn first_cheapest_days(ways: &Ways, layers: &mut DayLayers, schedule: &mut [u8]) -> bool
    requires sound { IsSound (arcs_of ways.now) }
    requires fits { FitsDays (arcs_of ways.now) layers.old }
    requires cheapest { AreKeptCheapest (arcs_of ways.now) layers.old }
    requires room { length schedule.old ≡ intervals_of (arcs_of ways.now) }
    ensures kept { layers.new.kept ≡ layers.old.kept }
    ensures fits { FitsDays (arcs_of ways.now) layers.new }
    ensures long { length layers.new.window ≡ length layers.old.window }
    ensures none { IsFalse result
        ↔ (entry (arcs_of ways.now) (slice_index_or layers.old.kept 0 []) ways.now.start ≡ NoWay) }
    ensures same { IsFalse result → schedule.new ≡ schedule.old }
    ensures first { IsTrue result
        → IsFirstCheapest (arcs_of ways.now) 0 ways.now.start schedule.new }
{
    let from_start = layers.row(0, 0)[usize::from(ways.start - ways.floor)].get();
    let Pot::To(_) = from_start else {
        return false;
    };
    let mut level = ways.start;
    for day in 0..layers.days() {
        fill_day(ways, day, layers);
        level = walk_day(ways, day, level, layers, schedule);
    }
    true
}
