//! The least costs of one row from those of the row after it.

ghost use Rattle.std.specs.Prelude.{◌≡◌, ◌+◌, ◌<◌, ◌≤◌, ◌^◌, [], length, map, slice_index_or};
ghost use Rattle.std.specs.List.{All};
ghost use Rattle.d_num.specs.Amount.{IsWithin};
ghost use Rattle.d_num.specs.Pot.{IsPotWithin};
ghost use Rattle.d_num.specs.declared.pot.Pot.TheVariants.{To};
ghost use Rattle.d_rows.specs.Packed.{shown};
ghost use Rattle.d_path.specs.Arcs.{arcs_of, intervals_of, IsSound};
ghost use Rattle.d_path.specs.Cheapest.{HasCheapest, IsWide};
ghost use Rattle.d_path.specs.Best.{IsLowered};
ghost use Rattle.d_path.specs.Sums.{AreSums};

use crate::span::span_of;
use crate::steps::costs_at;
use crate::ways::{Move, Ways};
use d_num::{Money, Pot};
use d_rows::Packed;

/// The most levels that there are.
pub const LEVELS: usize = 256;

/// How many levels there are from floor to capacity.
pub fn levels_of(ways: &Ways) -> usize
    requires { ways.now.floor ≤ ways.now.capacity }
    ensures count { ways.now.floor + result ≡ ways.now.capacity + 1 }
    ensures most { result ≤ 256 }
{
    usize::from(ways.capacity - ways.floor) + 1
}

/// Lowers each sum to the cost by a move, where that is less; the next row has what it costs after it.
///
/// This is the inner loop of every pass: one addition and one comparison a step. The number of no way and a cost make one that is
/// still far above every cost, so no step tests for no way.
fn lower_sums(ways: &Ways, step: &Move, cost: Money, sums: &mut [i128], next: &[Packed])
    requires cost { IsWithin (10 ^ 32) cost }
    requires wide { ways.now.floor + length sums.old ≡ ways.now.capacity + 1 }
    requires next_wide { ways.now.floor + length next.now ≡ ways.now.capacity + 1 }
    requires next_within { All (IsPotWithin (10 ^ 36)) next.now }
    requires sums { AreSums sums.old }
    ensures sums { AreSums sums.new }
    ensures lowered { IsLowered (arcs_of ways.now) step.now (To cost) next.now
        (map shown sums.old) (map shown sums.new) }
{
    let span = span_of(ways, step);
    let by = cost.units();
    for i in 0..span.count {
        let by_move = next[span.to + i].units() + by;
        sums[span.from + i] = sums[span.from + i].min(by_move);
    }
}

/// Makes each sum the least cost from its level at interval t, where the next row has those at the interval after it.
fn fill_sums(ways: &Ways, t: usize, sums: &mut [i128], next: &[Packed])
    requires sound { IsSound (arcs_of ways.now) }
    requires inside { t < intervals_of (arcs_of ways.now) }
    requires wide { ways.now.floor + length sums.old ≡ ways.now.capacity + 1 }
    requires next_wide { ways.now.floor + length next.now ≡ ways.now.capacity + 1 }
    requires next_cheapest { HasCheapest (arcs_of ways.now) (t + 1) next.now }
    ensures sums { AreSums sums.new }
    ensures cheapest { HasCheapest (arcs_of ways.now) t (map shown sums.new) }
{
    sums.fill(Packed::no_way().units());
    let costs = costs_at(ways, t);
    for (number, step) in ways.moves.iter().enumerate() {
        if let Pot::To(cost) = costs[number].get() {
            lower_sums(ways, step, cost, sums, next);
        }
    }
}

/// Makes each entry of this row what its sum stands for.
fn write_sums(sums: &[i128], row: &mut [Packed])
    requires long { length sums.now ≡ length row.old }
    requires sums { AreSums sums.now }
    ensures { row.new ≡ map shown sums.now }
{
    for (column, entry) in row.iter_mut().enumerate() {
        *entry = Packed::of(sums[column]);
    }
}

/// Makes each entry of this row the least cost from its level at interval t, where the next row has those at the interval after it.
/// The sums are written over.
pub fn fill_row(ways: &Ways, t: usize, sums: &mut [i128], row: &mut [Packed], next: &[Packed])
    requires sound { IsSound (arcs_of ways.now) }
    requires inside { t < intervals_of (arcs_of ways.now) }
    requires room { length sums.old ≡ length row.old }
    requires wide { ways.now.floor + length row.old ≡ ways.now.capacity + 1 }
    requires next_wide { ways.now.floor + length next.now ≡ ways.now.capacity + 1 }
    requires next_cheapest { HasCheapest (arcs_of ways.now) (t + 1) next.now }
    ensures { HasCheapest (arcs_of ways.now) t row.new }
{
    fill_sums(ways, t, sums, next);
    write_sums(sums, row);
}

/// Makes each entry of this row the least cost from its level at the month's end: nothing where a way may end there.
pub fn fill_last(ways: &Ways, row: &mut [Packed])
    requires sound { IsSound (arcs_of ways.now) }
    requires wide { ways.now.floor + length row.old ≡ ways.now.capacity + 1 }
    ensures { HasCheapest (arcs_of ways.now) (intervals_of (arcs_of ways.now)) row.new }
{
    let nothing = Money::new(0).unwrap();
    for (column, entry) in row.iter_mut().enumerate() {
        let level = ways.floor + column as u8;
        *entry = if level < ways.end {
            Packed::no_way()
        } else {
            Packed::to(nothing)
        };
    }
}
