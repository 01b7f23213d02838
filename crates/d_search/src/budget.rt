//! How many boxes a search may look at.

ghost use Rattle.std.specs.Prelude.{◌≡◌, ◌≤◌};
ghost use Rattle.d_search.specs.Budgets.{IsDefaultBudget, product};

/// The product of sizes is at most this. Our own rule.
pub const PRODUCT_LIMIT: u64 = 16_777_216;

/// The budget is at most this where none is asked for. Our own rule.
const MOST_PAIRS: u64 = 128;

/// The product of sizes of a search: half the budget, rounded up, times one more than the intervals, times the levels.
pub fn product_of(budget: u32, intervals: u32, levels: u16) -> u64
    requires { budget ≤ 65535 }
    ensures { result ≡ product budget intervals levels }
{
    let pairs = (u64::from(budget) + 1) / 2;
    pairs * ((u64::from(intervals) + 1) * u64::from(levels))
}

/// How many boxes a search may look at where no number is asked for: the greatest odd number up to 255 whose product of sizes isn't above
/// the limit. Our own rule.
pub fn default_budget(intervals: u32, levels: u16) -> u32
    requires intervals { intervals ≤ 8928 }
    requires some { 1 ≤ levels }
    requires levels { levels ≤ 256 }
    ensures { IsDefaultBudget intervals levels result }
{
    let size = (u64::from(intervals) + 1) * u64::from(levels);
    let pairs = (PRODUCT_LIMIT / size).min(MOST_PAIRS);
    (2 * pairs - 1) as u32
}
