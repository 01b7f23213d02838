//! The reader of a record of the Utility Rate Database: the tariff of a row of its bulk file, or the one reason why it is refused.
//!
//! It knows how the cells of a record are read and which rules they keep; where they stand, d_columns knows. It knows nothing of files, months
//! or a meter's readings. Each cell is read in exactly one way, so that each record has exactly one outcome, and that is a law of its own.
#![tactic(auto)]

mod cause;
mod charges;
mod checks;
mod coincident;
mod coincident_rule;
mod demand;
mod fault;
mod flat_months;
mod fuel;
mod hours;
mod ignored;
mod label;
mod law;
mod months;
mod named_number;
mod number;
mod periods;
mod ratchets;
mod record;
mod row;
mod rule;
mod terms;
mod tier_rule;
mod values;

pub use cause::refusal_name;
pub use fault::{RecordFault, Refused};
pub use law::{accepts_tariffs, charges_as_recorded, reads_once};
pub use record::read_record;
pub use rule::{RuleChoice, hourly_refusal};
