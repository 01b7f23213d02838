//! Where a table's tiers end: which of them holds an amount, and where its price changes between two amounts.

ghost use Rattle.std.specs.Prelude.{◌≡◌, ◌<◌, length};
ghost use Rattle.d_tier.specs.TierEnds.{ends_by, holding, IsInnerEnd};
ghost use Rattle.d_tier.specs.Steps.{IsLowered};

use crate::tiers::Tiers;

impl Tiers {
    /// The tier that holds an amount, counted from 0: the first whose end is above the amount, or the last. The amount is in Wh or W.
    pub fn holding(&self, amount: i64) -> usize
        ensures value { result ≡ holding self.now amount }
        ensures inside { result < length self.now }
    {
        let last = self.count() - 1;
        for tier in 0..last {
            if !ends_at_most(self.end(tier), amount) {
                return tier;
            }
        }
        last
    }

    /// The lowest end of a tier strictly between both amounts, or None where there is none. They are in Wh or W.
    pub fn inner_end(&self, low: i64, high: i64) -> Option<i64>
        ensures { IsInnerEnd self.now low high (length self.now) result }
    {
        let mut lowest = high;
        for tier in 0..self.count() {
            lowest = lower(low, lowest, self.end(tier));
        }
        if low < lowest && lowest < high {
            Some(lowest)
        } else {
            None
        }
    }
}

/// Whether a tier ends at an amount or below it.
fn ends_at_most(end: Option<i64>, amount: i64) -> bool
    ensures { result ≡ ends_by end amount }
{
    match end {
        Some(end) => end <= amount,
        None => false,
    }
}

/// The lower of what was found and of a tier's end, where that is above the low end.
fn lower(low: i64, lowest: i64, end: Option<i64>) -> i64
    ensures { IsLowered low lowest end result }
{
    if let Some(end) = end {
        if low < end && end < lowest {
            return end;
        }
    }
    lowest
}
