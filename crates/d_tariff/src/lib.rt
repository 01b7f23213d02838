//! The typed, valid tariff of one record of the Utility Rate Database: its energy and demand periods with their hours, its charges,
//! and which of the record's columns it leaves out.
//!
//! It knows nothing of files. Only growing its lists takes memory.
#![tactic(auto)]

mod charge;
mod period;
mod tariff;

pub use charge::{Charge, ChargeUnit};
pub use period::{Columns, Period, Periods, TierLists};
pub use tariff::Tariff;
