//! The halves of a split box.

ghost use Rattle.std.specs.Prelude.{◌≡◌};
ghost use Rattle.d_box.specs.Boxes.{left_half, right_half, IsSplitThere};

use crate::space::{Space, Split};

/// Makes both halves of a box. A total is split at its place, which both halves have. A peak is split between two neighbours among its
/// candidates: the left half ends at `below`, which is the place of the split, and the right half begins at `above`, the next candidate. Our
/// own rule.
pub fn halves(
    space: &Space,
    split: Split,
    below: i64,
    above: i64,
    left: &mut Space,
    right: &mut Space,
)
    requires { IsSplitThere split }
    ensures left { left.new ≡ left_half space.now split below }
    ensures right { right.new ≡ right_half space.now split above }
{
    *left = *space;
    *right = *space;
    match split {
        Split::Total { index, at } => {
            left.totals[index as usize].high = at;
            right.totals[index as usize].low = at;
        }
        Split::Peak { group, at: _ } => {
            left.peaks[group as usize].high = below;
            right.peaks[group as usize].low = above;
        }
    }
}
