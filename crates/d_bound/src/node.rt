//! What is known of a box.

use d_box::Slopes;
use d_num::Money;

/// The bound of a box, the slopes that gave it, and the bill of the box's schedule. Bound and bill are None together, exactly where no
/// feasible schedule is within the caps of the box.
#[derive(Clone, Copy)]
pub struct Node {
    /// No schedule that the box holds has a smaller bill, in 10^-21 USD.
    pub bound: Option<Money>,
    /// At which the energy of tiered periods was counted.
    pub slopes: Slopes,
    /// The bill of the first cheapest schedule within the caps, in 10^-21 USD.
    pub bill: Option<Money>,
}
