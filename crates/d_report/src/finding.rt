//! What is known of a plan's bill.

use d_num::Money;

/// Whether a plan's bill is the least, or why that isn't known.
#[derive(Clone, Copy, PartialEq, Eq, Debug)]
pub enum Found {
    /// No feasible schedule has a smaller bill.
    Least,
    /// A smaller bill may be possible, and more boxes may find it.
    GapBudget,
    /// A smaller bill may be possible, and no number of boxes finds it.
    GapDuality,
}

/// What is known of a plan's bill, and in how many boxes that was found.
#[derive(Clone, Copy)]
pub struct Finding {
    /// Whether it is the least.
    pub found: Found,
    /// No feasible schedule has a smaller bill than this, in 10^-21 USD; it is shown only where the bill may not be the least.
    pub lower: Option<Money>,
    /// How many boxes were looked at.
    pub boxes: u32,
}
