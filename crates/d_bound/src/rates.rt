//! The rates at which a problem's energy is counted.

ghost use Rattle.std.specs.Prelude.{◌≡◌, [], ◌<◌, IfOk, length};
ghost use Rattle.d_bill.specs.Slopes.{slope_rate, rates_of};

use d_bill::{PERIODS, Problem};
use d_num::{NoMemory, Rate};
use std::alloc::Global;

/// The rate of each energy period, from 0 to 35: its price where it has one, and 0 where it has several or doesn't occur.
pub(crate) fn prices_of(alloc: Global, problem: &Problem) -> Result<Vec<Rate>, NoMemory>
    ensures value { IfOk result (λ rates. rates.items ≡ rates_of problem.now []) }
    ensures long { IfOk result (λ rates. length rates.items ≡ 36) }
{
    let mut rates = Vec::with_capacity(alloc, usize::from(PERIODS))?;
    for period in 0..PERIODS {
        rates.push(price_of(problem, period))?;
    }
    Ok(rates)
}

/// The rate of an energy period.
fn price_of(problem: &Problem, period: u8) -> Rate
    requires { period < 36 }
    ensures { result ≡ slope_rate problem.now [] period }
{
    match problem.energy(period) {
        Some(found) if found.tiers.count() == 1 => found.tiers.price(0),
        _ => Rate::new(0).unwrap(),
    }
}
