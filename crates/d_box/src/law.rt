//! What holds of all boxes and their halves.

ghost use Rattle.d_box.specs.Candidates.{RangesHaveCandidates};
ghost use Rattle.d_box.specs.Halves.{SplitsAreCuts, SplitsAreOne, IsPeakCover, IsTotalCover, AreWithin, AreBoxes, AreHalvesEnds, AreShared};

/// The range from the least to the greatest candidate of a group has each of them, and goes from a candidate to a candidate.
pub fn ranges_have_candidates()
    ensures { RangesHaveCandidates }
{}

/// The split of a box is a place where the box may be split.
pub fn splits_are_cuts()
    ensures { SplitsAreCuts }
{}

/// A box has one split: two that meet the rules of a split are the same.
pub fn splits_are_one()
    ensures { SplitsAreOne }
{}

/// What the box holds, with a peak among the candidates, exactly one half of a peak's split holds.
pub fn peak_halves_cover()
    ensures { IsPeakCover }
{}

/// What the box holds, a half of a total's split holds.
pub fn total_halves_cover()
    ensures { IsTotalCover }
{}

/// What a half holds, its box holds.
pub fn halves_are_within()
    ensures { AreWithin }
{}

/// The halves of a box are boxes.
pub fn halves_are_boxes()
    ensures { AreBoxes }
{}

/// The ranges of the halves' peaks go from candidate to candidate, as their box's do.
pub fn halves_keep_ends()
    ensures { AreHalvesEnds }
{}

/// A box has as many choices of candidates as both halves of a peak's split together.
pub fn halves_share_choices()
    ensures { AreShared }
{}
