//! Slopes.

use d_num::Rate;

/// A rate for each tiered period, in the order of these periods, at which its energy is counted; entries that aren't used are 0.
#[derive(Clone, Copy)]
pub struct Slopes {
    /// In units of 10^-18 USD per kWh.
    pub rates: [Rate; 36],
}
