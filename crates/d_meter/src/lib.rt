//! The reader of a month of net meter readings: a reading every 15, 30 or 60 minutes, from the month's first minute to its last.
//!
//! It knows how a table says the readings and why it is refused, and nothing of files, tariffs or batteries. Each cell is read in exactly
//! one way, so that each table has exactly one outcome, and that is a law of its own.
#![tactic(auto)]

mod fault;
mod head;
mod law;
mod meter;
mod read;
mod row;

pub use fault::MeterFault;
pub use law::{accepts_months, meters_once};
pub use meter::{Meter, NetList};
pub use read::read_meter;
