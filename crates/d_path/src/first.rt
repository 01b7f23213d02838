//! The first cheapest way, move by move from the start.

ghost use Rattle.std.specs.Prelude.{◌≡◌, ◌≢◌, ◌↔◌, ◌+◌, ◌<◌, ◌≤◌, [], length, slice_index_or, IsTrue, IsFalse};
ghost use Rattle.d_num.specs.declared.pot.Pot.TheVariants.{NoWay};
ghost use Rattle.d_path.specs.Arcs.{arcs_of, intervals_of, IsSound};
ghost use Rattle.d_path.specs.Cheapest.{HasCheapest, HasWay, IsFirstCheapest, IsWide, entry};
ghost use Rattle.d_path.specs.Best.{IsFirstMove};

use crate::steps::{best_move, costs_at, next_level};
use crate::ways::Ways;
use d_num::Pot;
use d_rows::Packed;

/// A move's number, and the level after it.
#[derive(Drop)]
pub struct Taken {
    /// The move's number.
    pub number: u8,
    /// The level after it.
    pub level: u8,
}

/// The first move of the first cheapest way from this level at interval t, where `next` has the least costs after it.
pub fn first_move(ways: &Ways, t: usize, level: u8, next: &[Packed]) -> Taken
    requires sound { IsSound (arcs_of ways.now) }
    requires inside { t < intervals_of (arcs_of ways.now) }
    requires next_wide { ways.now.floor + length next.now ≡ ways.now.capacity + 1 }
    requires next_cheapest { HasCheapest (arcs_of ways.now) (t + 1) next.now }
    requires there { HasWay (arcs_of ways.now) t level }
    ensures { IsFirstMove (arcs_of ways.now) t level next.now result.number result.level }
{
    let costs = costs_at(ways, t);
    let number = best_move(ways, costs, level, next).number;
    let after = next_level(ways, level, &ways.moves[number]).unwrap();
    Taken {
        number: number as u8,
        level: after,
    }
}
