//! Tables of marginal tiers: prices that change at rising ends, as tariffs charge energy and demand.
//!
//! Energy tiers count watt-hours and demand tiers watts; a price is in units of 10^-18 USD per kWh or per kW. A table is kept in place:
//! nothing here takes memory.
#![tactic(auto)]

mod charges;
mod ends;
mod law;
mod peak;
mod tier;
mod tiers;

pub use law::{charges_rise, joining_keeps_charges, least_gap_is_least};
pub use peak::Peak;
pub use tier::Tier;
pub use tiers::Tiers;
