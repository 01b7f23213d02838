//! One tier.

use d_num::Rate;

/// The price of what lies in a tier, and where the tier ends; the last tier of a table has no end.
#[derive(Clone, Copy, PartialEq, Eq)]
pub struct Tier {
    /// In units of 10^-18 USD per kWh or per kW.
    pub price: Rate,
    /// From 1 to 10^13 Wh or W; None in the last tier of a table.
    pub end: Option<i64>,
}
