//! The civil calendar of a tariff: months, weekends, which period holds at an hour of a day, and the starts of a month's intervals.
//!
//! It knows the Gregorian calendar of the years 1 to 9999, and neither time zones nor holidays. Nothing here takes memory.
#![tactic(auto)]

mod law;
mod month;
mod schedule;
mod start;

pub use law::names_one_start;
pub use month::Month;
pub use schedule::Schedule;
pub use start::{Start, read_start, start_text};
