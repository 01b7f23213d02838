//! The joined problem of one month: its readings, the terms that hold in it and its battery; which schedules keep the battery's rules;
//! what is counted of a schedule or of the readings alone, and the bill of that.
//!
//! It knows no file, and nothing of how a best schedule is found. Counting and charging take no memory.
#![tactic(auto)]

mod arc;
mod charge;
mod count;
mod join;
mod law;
mod problem;
mod schedule;
mod tally;
mod walk;

pub use arc::{Arc, At, Interval};
pub use law::{joins_in_range, parts_by_slopes, parts_sum, reads_once};
pub use problem::Problem;
pub use schedule::{ScheduleFault, read_schedule};
pub use tally::{PERIODS, Tally};
