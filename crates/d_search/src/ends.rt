//! Why a search ends, and what it answers then.

ghost use Rattle.std.specs.Prelude.{◌≡◌, ◌<◌, ◌≤◌, ◌^◌, Some, length, MatchBool};
ghost use Rattle.d_bound.specs.BoxLaws.{IsAtMost};
ghost use Rattle.d_search.specs.Growths.{IsNext};
ghost use Rattle.d_search.specs.Outcomes.{IsNoSchedule};
ghost use Rattle.d_search.specs.Rules.{IsBelow};

use crate::growth::Growth;
use crate::outcome::{Modes, Outcome, Verdict};
use crate::tree::Tree;
use d_front::Key;
use d_num::Money;

/// Whether a bound isn't below the least bill so far.
fn is_met(bill: Option<Money>, bound: Money) -> bool
    ensures { MatchBool result (IsAtMost bill (Some bound)) (IsBelow (Some bound) bill) }
{
    match bill {
        Some(bill) => bill <= bound,
        None => false,
    }
}

/// Why the search ends before the leaf of the first key is split, or None where it is split.
pub(crate) fn verdict_at(
    bill: Option<Money>,
    count: usize,
    budget: u32,
    key: &Key,
) -> Option<Verdict>
    requires { count ≤ budget }
    ensures { IsNext budget count bill key.now result }
{
    if is_met(bill, key.bound) {
        return Some(Verdict::Least);
    }
    if key.point {
        return Some(Verdict::GapDuality);
    }
    if (budget as usize) < count + 2 {
        return Some(Verdict::GapBudget);
    }
    None
}

/// The outcome with the schedule that was kept.
pub(crate) fn finish(growth: Growth, verdict: Verdict, lower: Option<Money>) -> Outcome
    requires { length growth.nodes.items < 2 ^ 32 }
    ensures verdict { result.verdict ≡ verdict }
    ensures bill { result.bill ≡ growth.bill }
    ensures lower { result.lower ≡ lower }
    ensures schedule { result.schedule ≡ growth.kept.items }
    ensures tree { result.tree ≡ growth.nodes.items }
{
    Outcome {
        verdict,
        bill: growth.bill,
        lower,
        schedule: Modes::of(growth.kept),
        tree: Tree::of(growth.nodes),
    }
}

/// The outcome where no schedule is feasible.
pub(crate) fn nothing(growth: Growth) -> Outcome
    requires { length growth.nodes.items < 2 ^ 32 }
    ensures none { IsNoSchedule result }
    ensures tree { result.tree ≡ growth.nodes.items }
{
    let mut schedule = growth.kept;
    schedule.clear();
    Outcome {
        verdict: Verdict::Infeasible,
        bill: None,
        lower: None,
        schedule: Modes::of(schedule),
        tree: Tree::of(growth.nodes),
    }
}
