//! What holds of all problems, whatever goes through the meter.

ghost use Rattle.d_bill.specs.Law.{JoinsInRange, IsPartedSum, IsPartedBySlopes};
ghost use Rattle.d_bill.specs.ScheduleLaw.{IsReadOnce};

/// The problem that is joined of a valid tariff with tables and grids, the readings of a whole month, a battery and an earlier peak of at
/// most 10^13 W is in range.
pub fn joins_in_range()
    ensures { JoinsInRange }
{}

/// A bill's sum in parts, at any rates of the energy periods: the fixed charge and the groups' charges, what the intervals cost at the
/// rates, and by how much the periods' charges are more than that.
pub fn parts_sum()
    ensures { IsPartedSum }
{}

/// The same with rates for the tiered periods alone: all others charge their one price.
pub fn parts_by_slopes()
    ensures { IsPartedBySlopes }
{}

/// The rows of every table are one schedule of a month and its battery and right, or are refused for one cause.
pub fn reads_once()
    ensures { IsReadOnce }
{}
