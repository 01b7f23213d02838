//! How many boxes the search for a plan may make, and how large it then is.

ghost use Rattle.std.specs.Prelude.{◌≡◌, ◌≤◌};
ghost use Rattle.d_run.specs.Answer.{IsBudgetOf, levels_of, product_for};

use d_bill::Problem;
use d_search::{default_budget, product_of};
use d_words::Budget;

/// How many boxes the search for a plan may make, from 1 to 65535: as many as the words give, or else the default for its intervals and
/// levels.
pub fn budget_of(problem: &Problem, given: Option<Budget>) -> u32
    ensures value { IsBudgetOf problem.now given result }
    ensures some { 1 ≤ result }
    ensures few { result ≤ 65535 }
{
    match given {
        Some(budget) => budget.boxes(),
        None => default_budget(problem.intervals(), levels(problem)),
    }
}

/// The product of the sizes of a search that may make so many boxes.
pub fn search_size(problem: &Problem, budget: u32) -> u64
    requires { budget ≤ 65535 }
    ensures { result ≡ product_for problem.now budget }
{
    product_of(budget, problem.intervals(), levels(problem))
}

/// How many levels the battery of a problem has.
fn levels(problem: &Problem) -> u16
    ensures value { result ≡ levels_of problem.now.storage }
    ensures some { 1 ≤ result }
    ensures few { result ≤ 256 }
{
    let battery = problem.battery();
    u16::from(battery.capacity) - u16::from(battery.floor) + 1
}
