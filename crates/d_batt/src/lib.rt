//! Batteries, what they can do in an interval, and the reader of a battery file: the battery, or the first of the reasons why it is refused.
//!
//! It knows no tariff, no month and no readings. Each cell is read in exactly one way, so that each file has exactly one outcome, and that
//! is a law of its own. Only lists of modes take memory.
#![tactic(auto)]

mod battery;
mod fault;
mod kind;
mod law;
mod level;
mod mode;
mod name;
mod number;
mod reader;
mod row;
mod setting;

pub use battery::{Battery, MOST_LIMIT};
pub use fault::BatteryFault;
pub use law::{accepts_batteries, reads_once};
pub use mode::{Mode, ModeList};
pub use name::Name;
pub use reader::read_battery;
