//! One move in one interval, and the best of all moves.

ghost use Rattle.std.specs.Prelude.{◌≡◌, ◌+◌, ◌*◌, ◌<◌, ◌≤◌, ◌^◌, length, Some, IsTrue, ◌↔◌};
ghost use Rattle.std.specs.List.{All};
ghost use Rattle.d_num.specs.Pot.{IsPotWithin, AtMost};
ghost use Rattle.d_path.specs.Arcs.{arcs_of, next_level, along, intervals_of, IsSound};
ghost use Rattle.d_path.specs.Cheapest.{entry};
ghost use Rattle.d_path.specs.Best.{IsFirstBest, AreCostsAt, cost_by};

use crate::ways::{Move, Ways};
use d_num::Pot;
use d_rows::Packed;

/// The least that the moves cost, and the number of the first move that costs so much.
#[derive(Drop)]
pub struct Best {
    /// The least cost.
    pub cost: Pot,
    /// The number of the first move that costs so much.
    pub number: usize,
}

/// The level after a move that begins at this level, or None where it may not begin there or would lead too low or too high.
pub fn next_level(ways: &Ways, level: u8, step: &Move) -> Option<u8>
    ensures { result ≡ next_level (arcs_of ways.now) level step.now }
{
    if level < step.low || step.high < level {
        return None;
    }
    let after = i32::from(level) + i32::from(step.change);
    if after < i32::from(ways.floor) || i32::from(ways.capacity) < after {
        return None;
    }
    Some(after as u8)
}

/// What the moves cost in interval t, by their numbers.
pub fn costs_at<'a>(ways: &Ways<'a>, t: usize) -> &'a [Packed]
    requires sound { IsSound (arcs_of ways.now) }
    requires inside { t < intervals_of (arcs_of ways.now) }
    ensures costs { AreCostsAt (arcs_of ways.now) t result.now }
    ensures within { All (IsPotWithin (10 ^ 32)) result.now }
{
    let count = ways.moves.len();
    let costs = ways.costs;
    &costs[t * count..(t + 1) * count]
}

/// What it costs to go on by a move of this cost, where `next` has what it costs after it.
pub fn cost_via(ways: &Ways, cost: Pot, level: u8, step: &Move, next: &[Packed]) -> Pot
    requires cost { IsPotWithin (10 ^ 32) cost }
    requires wide { ways.now.floor + length next.now ≡ ways.now.capacity + 1 }
    requires within { All (IsPotWithin (10 ^ 36)) next.now }
    ensures { result ≡ along cost (next_level (arcs_of ways.now) level step.now) (entry (arcs_of ways.now) next.now) }
{
    let Pot::To(money) = cost else {
        return Pot::NoWay;
    };
    match next_level(ways, level, step) {
        Some(after) => next[usize::from(after - ways.floor)].get().plus(money),
        None => Pot::NoWay,
    }
}

/// Whether this cost is no greater than the other.
fn is_at_most(one: &Pot, other: &Pot) -> bool
    ensures { IsTrue result ↔ AtMost one.now other.now }
{
    let one = *one;
    let other = *other;
    one.at_most(other)
}

/// The best move from this level, where `costs` has what each move costs and `next` what it costs after it.
pub fn best_move(ways: &Ways, costs: &[Packed], level: u8, next: &[Packed]) -> Best
    requires long { length costs.now ≡ length ways.now.moves.now }
    requires costs_within { All (IsPotWithin (10 ^ 32)) costs.now }
    requires wide { ways.now.floor + length next.now ≡ ways.now.capacity + 1 }
    requires within { All (IsPotWithin (10 ^ 36)) next.now }
    ensures { IsFirstBest (cost_by (arcs_of ways.now) costs.now next.now level)
        (length ways.now.moves.now) result.cost result.number }
{
    let mut least = Pot::NoWay;
    let mut first = 0;
    for (number, step) in ways.moves.iter().enumerate() {
        let cost = cost_via(ways, costs[number].get(), level, step, next);
        let stays = is_at_most(&least, &cost);
        if !stays {
            least = cost;
            first = number;
        }
    }
    Best {
        cost: least,
        number: first,
    }
}
