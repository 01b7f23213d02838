//! What a search answers.

ghost use Rattle.std.specs.Prelude.{◌≡◌};

use crate::tree::Tree;
use d_num::Money;
use std::marker::Model;

/// How a search ended.
#[derive(Clone, Copy, PartialEq, Eq, Debug)]
pub enum Verdict {
    /// No feasible schedule has a smaller bill.
    Least,
    /// A smaller bill may be possible; to go on would make more nodes than were allowed.
    GapBudget,
    /// A smaller bill may be possible; the box that may hold it can't be split.
    GapDuality,
    /// No schedule is feasible.
    Infeasible,
}

/// A schedule, as its mode numbers, one an interval. A contract sees it as their list.
#[derive(Drop)]
pub struct Modes {
    numbers: Vec<u8>,
}

impl Model for Modes {
    ghost use Rattle.std.specs.Prelude.{ℕ, List};

    ghost Value = { List ℕ };

    ghost view = { λ modes. modes.numbers.items };
}

impl Modes {
    /// These mode numbers.
    pub(crate) fn of(numbers: Vec<u8>) -> Modes
        ensures { result ≡ numbers.items }
    {
        Modes { numbers }
    }

    /// The mode number of each interval.
    pub fn list(&self) -> &[u8]
        ensures { result.now ≡ self.now }
    {
        self.numbers.as_slice()
    }
}

/// What was found, and the tree that shows it.
#[derive(Drop)]
pub struct Outcome {
    /// How the search ended.
    pub verdict: Verdict,
    /// The bill of the schedule in 10^-21 USD; None exactly where no schedule is feasible.
    pub bill: Option<Money>,
    /// No feasible schedule has a smaller bill, in 10^-21 USD; None exactly where no schedule is feasible.
    pub lower: Option<Money>,
    /// The schedule with the smallest bill of those that were found; empty where no schedule is feasible.
    pub schedule: Modes,
    /// Every box that was looked at.
    pub tree: Tree,
}
