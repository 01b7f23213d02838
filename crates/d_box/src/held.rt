//! Whether a box holds peaks and totals.

ghost use Rattle.std.specs.Prelude.{◌≡◌, ◌↔◌, ◌≤◌, length, IsTrue};
ghost use Rattle.d_box.specs.Boxes.{AreIn, Holds};

use crate::space::{Range, Space};

/// Whether each number is in the range at its place.
fn are_in(ranges: &[Range], numbers: &[i64]) -> bool
    requires { length numbers.now ≤ length ranges.now }
    ensures { IsTrue result ↔ AreIn ranges.now numbers.now }
{
    for (i, number) in numbers.iter().enumerate() {
        if *number < ranges[i].low || ranges[i].high < *number {
            return false;
        }
    }
    true
}

/// Whether the box holds these peaks in W and these totals in Wh: each is in its range.
pub fn holds(space: &Space, peaks: &[i64], totals: &[i64]) -> bool
    requires peaks { length peaks.now ≤ 37 }
    requires totals { length totals.now ≤ 36 }
    ensures { IsTrue result ↔ Holds space.now peaks.now totals.now }
{
    are_in(&space.peaks, peaks) && are_in(&space.totals, totals)
}
