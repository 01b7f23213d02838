//! What the modes of a battery cost, how they move its level, and what power they draw.

ghost use Rattle.std.specs.Prelude.{◌≡◌, ◌*ℤ◌, ◌*◌, ◌^◌, ◌<◌, length, map, IfOk};
ghost use Rattle.d_num.specs.Amount.{IsWithin};
ghost use Rattle.d_bill.specs.Flows.{arc_of};
ghost use Rattle.d_bound.specs.PlanWays.{all_powers, mode_cost, mode_costs, move_of};
ghost use Rattle.d_bound.specs.Bounders.{power_in, mode_powers};

use d_batt::Mode;
use d_bill::Problem;
use d_num::{Money, NoMemory, Rate, Wh};
use d_path::Move;
use d_rows::Packed;
use std::alloc::Global;

/// What each mode costs in each interval, interval by interval.
pub(crate) fn costs_of(
    alloc: Global,
    problem: &Problem,
    rates: &[Rate],
) -> Result<Vec<Packed>, NoMemory>
    requires { length rates.now ≡ 36 }
    ensures { IfOk result (λ costs. costs.items ≡ mode_costs problem.now all_powers rates.now) }
{
    let modes = problem.battery().modes.len();
    let count = problem.intervals() as usize * modes;
    let mut costs = Vec::with_capacity(alloc, count)?;
    for place in 0..count {
        costs.push(cost_of(
            problem,
            rates,
            (place / modes) as u32,
            (place % modes) as u8,
        ))?;
    }
    Ok(costs)
}

/// What a mode costs in an interval: its import at the rate of the interval's period, less what its export is paid; no way where the
/// battery's limits don't allow it.
fn cost_of(problem: &Problem, rates: &[Rate], interval: u32, mode: u8) -> Packed
    requires rates { length rates.now ≡ 36 }
    requires interval { interval < length problem.now.net }
    requires mode { mode < length problem.now.storage.modes }
    ensures { result ≡ mode_cost problem.now all_powers rates.now interval mode }
{
    match problem.arc(interval, mode) {
        Some(arc) => {
            let here = problem.interval(interval);
            let bought = worth(rates[usize::from(here.period)], arc.import);
            let sold = worth(here.sell, arc.export);
            Packed::to(bought.minus(sold))
        }
        None => Packed::no_way(),
    }
}

/// What an amount of energy is worth at a rate.
fn worth(rate: Rate, amount: Wh) -> Money
    ensures value { result ≡ rate *ℤ amount }
    ensures range { IsWithin (2 * 10 ^ 35) result }
{
    // shows the rate's range
    let _units = rate.units();
    rate.times(amount.value())
}

/// How the modes move the battery's level.
pub(crate) fn moves_of(alloc: Global, modes: &[Mode]) -> Result<Vec<Move>, NoMemory>
    ensures { IfOk result (λ moves. moves.items ≡ map move_of modes.now) }
{
    let mut moves = Vec::with_capacity(alloc, modes.len())?;
    for mode in modes {
        moves.push(Move {
            change: mode.change,
            low: mode.low,
            high: mode.high,
        })?;
    }
    Ok(moves)
}

/// The power of each mode in each interval in W, interval by interval; 0 where the battery's limits don't allow it.
pub(crate) fn powers_of(alloc: Global, problem: &Problem) -> Result<Vec<i64>, NoMemory>
    ensures { IfOk result (λ powers. powers.items ≡ mode_powers problem.now) }
{
    let modes = problem.battery().modes.len();
    let count = problem.intervals() as usize * modes;
    let mut powers = Vec::with_capacity(alloc, count)?;
    for place in 0..count {
        powers.push(power_of(problem, (place / modes) as u32, (place % modes) as u8))?;
    }
    Ok(powers)
}

/// The power of a mode in an interval; 0 where the battery's limits don't allow it.
fn power_of(problem: &Problem, interval: u32, mode: u8) -> i64
    requires interval { interval < length problem.now.net }
    requires mode { mode < length problem.now.storage.modes }
    ensures { result ≡ power_in (arc_of problem.now interval mode) }
{
    match problem.arc(interval, mode) {
        Some(arc) => arc.power.value(),
        None => 0,
    }
}
