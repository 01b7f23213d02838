//! Which slopes are tried for a box.

ghost use Rattle.std.specs.Prelude.{◌≡◌, ◌≤◌, ◌<◌, ◌+◌, ◌*◌, ◌^◌, ◌≤ℤ◌, ◌-ℤ◌, None, length, option_map};
ghost use Rattle.std.specs.List.{All};
ghost use Rattle.d_num.specs.Amount.{IsWithin, IsRate};
ghost use Rattle.std.specs.Int.{int_max, int_min};
ghost use Rattle.d_tier.specs.Tables.{IsLowestPrice, IsHighestPrice};
ghost use Rattle.d_box.specs.Trials.{HasEnergyPrices, low_slope, quarters, shifted, moved, IsTrial, AreFirst};

use crate::slopes::Slopes;
use crate::space::Space;
use d_num::{Money, Rate};
use d_tier::Tiers;

const PERIODS: usize = 36;

/// How many trials there are with so many tiered periods.
pub fn trial_count(tiered: usize) -> usize
    requires { tiered ≤ 36 }
    ensures { result ≡ 2 + 8 * tiered }
{
    2 + 8 * tiered
}

/// Writes the slopes of a trial; `energy` has the tables of the tiered periods. Trial 0 has the parent's slopes, trial 1 the prices at the
/// low ends of the box's totals, and behind them each period in turn has eight trials, which raise and then lower its slope by quarters of
/// the spread of its prices. At the root, where there is no parent, the slopes of trial 1 stand for the parent's. Our own rule.
pub fn trial(
    space: &Space,
    energy: &[Tiers],
    parent: Option<&Slopes>,
    number: usize,
    out: &mut Slopes,
)
    requires energy { length energy.now ≤ 36 }
    requires prices { All HasEnergyPrices energy.now }
    requires number { number < 2 + 8 * length energy.now }
    ensures { IsTrial space.now energy.now (option_map (λ s. s.now) parent.entry) number out.new }
{
    if number == 1 {
        write_low(space, energy, out);
        return;
    }
    write_first(space, energy, parent, out);
    if number >= 2 {
        let index = (number - 2) / 8;
        let rate = out.rates[index];
        out.rates[index] = move_slope(&energy[index], rate, (number - 2) % 8);
    }
}

/// Writes the slopes that are tried first.
fn write_first(space: &Space, energy: &[Tiers], parent: Option<&Slopes>, out: &mut Slopes)
    requires { length energy.now ≤ 36 }
    ensures { AreFirst space.now energy.now (option_map (λ s. s.now) parent.entry) out.new }
{
    match parent {
        Some(parent) => *out = *parent,
        None => write_low(space, energy, out),
    }
}

/// Writes the prices of the tiers that hold the low ends.
fn write_low(space: &Space, energy: &[Tiers], out: &mut Slopes)
    requires { length energy.now ≤ 36 }
    ensures { AreFirst space.now energy.now None out.new }
{
    for index in 0..PERIODS {
        out.rates[index] = slope_at(space, energy, index);
    }
}

/// The price of the tier that holds the low end of a period's range.
fn slope_at(space: &Space, energy: &[Tiers], index: usize) -> Rate
    requires { index < 36 }
    ensures { result ≡ low_slope space.now energy.now index }
{
    if index < energy.len() {
        let tiers = &energy[index];
        tiers.price(tiers.holding(space.totals[index].low))
    } else {
        Rate::new(0).unwrap()
    }
}

/// A slope moved by a step, and kept from the spread below the lowest price to the spread above the highest.
fn move_slope(tiers: &Tiers, slope: Rate, step: usize) -> Rate
    requires prices { HasEnergyPrices tiers.now }
    requires step { step < 8 }
    ensures { result ≡ moved tiers.now slope step }
{
    let lowest = tiers.lowest_price();
    let highest = tiers.highest_price();
    let spread = minus(highest, lowest);
    let target = shift(spread, slope, step);
    keep(minus(lowest, spread), highest.plus(spread), &target)
}

/// How much more one price is than another.
fn minus(price: Rate, other: Rate) -> Rate
    requires { IsRate (price -ℤ other) }
    ensures { result ≡ price -ℤ other }
{
    Rate::new(price.units() - other.units()).unwrap()
}

/// So many quarters of a spread, rounded down.
fn quarters(spread: Rate, count: usize) -> Money
    requires { count ≤ 4 }
    ensures { result ≡ quarters spread count }
{
    Money::new(spread.times(count as i64).units() / 4).unwrap()
}

/// A slope raised or lowered.
fn shift(spread: Rate, slope: Rate, step: usize) -> i128
    requires step { step < 8 }
    ensures { result ≡ shifted spread slope step }
{
    if step < 4 {
        slope.units() + quarters(spread, step + 1).units()
    } else {
        slope.units() - quarters(spread, step - 3).units()
    }
}

/// A slope in its bounds.
fn keep(least: Rate, greatest: Rate, slope: &i128) -> Rate
    requires { least ≤ℤ greatest }
    ensures { result ≡ int_max least (int_min slope.now greatest) }
{
    if *slope < least.units() {
        return least;
    }
    if greatest.units() < *slope {
        return greatest;
    }
    Rate::new(*slope).unwrap()
}
