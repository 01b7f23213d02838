//! A problem's ways: its costs and moves between the levels of its battery, the layers for them, and the first cheapest way.

ghost use Rattle.std.specs.Prelude.{◌≡◌, length, IfOk};
ghost use Rattle.d_path.specs.Arcs.{arcs_of, intervals_of, IsSound};
ghost use Rattle.d_path.specs.Days.{FitsDays};
ghost use Rattle.d_bound.specs.Bounders.{AreLayersOf, IsFoundFirst, levels_in, arcs_over};

use d_bill::Problem;
use d_num::{Money, NoMemory, Pot};
use d_path::{Move, Ways, backward_days, first_cheapest_days};
use d_rows::{DayLayers, Packed};
use std::alloc::Global;

/// The minutes of a day.
const DAY: u32 = 1440;

/// What the cheapest way costs, or None exactly where there is no way. The schedule becomes the first of the cheapest ways, or stays.
pub(crate) fn find_first(ways: &Ways, layers: &mut DayLayers, schedule: &mut [u8]) -> Option<Money>
    requires sound { IsSound (arcs_of ways.now) }
    requires fits { FitsDays (arcs_of ways.now) layers.old }
    requires room { length schedule.old ≡ intervals_of (arcs_of ways.now) }
    ensures fits { FitsDays (arcs_of ways.now) layers.new }
    ensures found { IsFoundFirst (arcs_of ways.now) schedule.old schedule.new result }
{
    backward_days(ways, layers);
    let from_start = layers.row(0, 0)[usize::from(ways.start - ways.floor)].get();
    let Pot::To(cost) = from_start else {
        return None;
    };
    first_cheapest_days(ways, layers, schedule);
    Some(cost)
}

/// Layers for the days of the month and the levels of the battery.
pub(crate) fn layers_of(alloc: Global, problem: &Problem) -> Result<DayLayers, NoMemory>
    ensures { IfOk result (AreLayersOf problem.now) }
{
    let battery = problem.battery();
    let levels = u16::from(battery.capacity - battery.floor) + 1;
    let days = u32::from(problem.month().days());
    let per_day = DAY / u32::from(problem.minutes());
    DayLayers::make(alloc, days, per_day, levels)
}

/// The levels of a battery, in steps.
#[derive(Clone, Copy)]
pub(crate) struct Levels {
    /// The least.
    pub floor: u8,
    /// The greatest.
    pub capacity: u8,
    /// Where it starts.
    pub start: u8,
    /// The least at which it may end.
    pub end: u8,
}

/// The levels of the problem's battery.
pub(crate) fn levels_of(problem: &Problem) -> Levels
    ensures { result ≡ levels_in problem.now }
{
    let battery = problem.battery();
    Levels {
        floor: battery.floor,
        capacity: battery.capacity,
        start: battery.start,
        end: battery.end,
    }
}

/// The ways at these costs, by these moves, between these levels.
pub(crate) fn ways_over<'a>(levels: Levels, costs: &'a [Packed], moves: &'a [Move]) -> Ways<'a>
    ensures { arcs_of result ≡ arcs_over levels costs.now moves.now }
{
    Ways {
        costs,
        moves,
        floor: levels.floor,
        capacity: levels.capacity,
        start: levels.start,
        end: levels.end,
    }
}
