//! What holds of all problems.

ghost use Rattle.d_bound.specs.BoxLaws.{BillsAreReached, BoundsAreBelow, BoundsComeWithBills, BoundsRise, BoxesHaveFirst, HalvesAreBoxes, HalvesHold, PointsMeet, RelaxedAreSmall, RootsAreBoxes, RootsHold};

/// The schedule of a box is the first cheapest within its caps, or none where no feasible schedule keeps them.
pub fn boxes_have_first()
    ensures { BoxesHaveFirst }
{}

/// The root's ranges of peaks go from candidate to candidate.
pub fn roots_are_boxes()
    ensures { RootsAreBoxes }
{}

/// The root holds every feasible schedule.
pub fn roots_hold()
    ensures { RootsHold }
{}

/// The ranges of both halves' peaks go from candidate to candidate.
pub fn halves_are_boxes()
    ensures { HalvesAreBoxes }
{}

/// A feasible schedule that a box holds is held by one of its halves.
pub fn halves_hold()
    ensures { HalvesHold }
{}

/// The bound of a box isn't above the bill of any feasible schedule that it holds.
pub fn bounds_are_below()
    ensures { BoundsAreBelow }
{}

/// A node has a bound exactly where it has a bill.
pub fn bounds_come_with_bills()
    ensures { BoundsComeWithBills }
{}

/// The bill of a node is that of a feasible schedule.
pub fn bills_are_reached()
    ensures { BillsAreReached }
{}

/// Bounds never fall from a box to its halves.
pub fn bounds_rise()
    ensures { BoundsRise }
{}

/// The bill of a point isn't above its bound.
pub fn points_meet()
    ensures { PointsMeet }
{}

/// No relaxed value is above 10^36 in size.
pub fn relaxed_are_small()
    ensures { RelaxedAreSmall }
{}
