//! Periods of energy and of demand.

use d_list::Items;
use d_num::Rate;
use d_tier::Tiers;

/// What energy costs in a period.
#[derive(Drop)]
pub struct Period {
    /// The tiers of the import: ends in Wh, prices in units of 10^-18 USD per kWh.
    pub tiers: Tiers,
    /// What is paid for the export, in units of 10^-18 USD per kWh.
    pub sell: Rate,
}

/// Energy periods by their number, from 0; None where there is no such period.
pub type Periods = Items<Option<Period>>;

/// The tiers of demand periods by the period's number, from 0; None where there is no such period. Their ends are in W, their prices in
/// units of 10^-18 USD per kW.
pub type TierLists = Items<Option<Tiers>>;

/// Positions of columns of a record, counted from 0.
pub type Columns = Items<usize>;
