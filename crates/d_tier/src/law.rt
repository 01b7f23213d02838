//! What holds of all tables.

ghost use Rattle.d_tier.specs.Gaps.{LeastGapIsLeast};
ghost use Rattle.d_tier.specs.Joined.{JoiningKeepsCharges};
ghost use Rattle.d_tier.specs.Rising.{ChargesRise};

/// A table, in which neighbours of one price are one tier, charges every amount as the tiers that it was made of do, each by itself.
pub fn joining_keeps_charges()
    ensures { JoiningKeepsCharges }
{}

/// Where no price is below 0, a higher demand is charged as much as a lower one or more.
pub fn charges_rise()
    ensures { ChargesRise }
{}

/// An amount of the range has the least gap, and none of the range has a lower one.
pub fn least_gap_is_least()
    ensures { LeastGapIsLeast }
{}
