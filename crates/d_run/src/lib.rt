//! A run of the dispatcher over a desk: from the words to the printed plan, bill or tariff.
//!
//! It reads the files that the words name, refuses each with its cause, searches for the schedule of the battery with the least bill or
//! bills one that it is given, and prints the answer. What the words, the files and the printed text mean stands in `specs`. Which words the
//! program was called with and what the system's files hold, no contract here says.
#![tactic(auto)]

mod battery;
mod bill;
mod budget;
mod fault;
mod law;
mod load;
mod month;
mod plan;
mod readings;
mod real;
mod record;
mod record_line;
mod reply;
mod request;
mod schedule;
mod show;
mod table;
mod top;
mod verdict;

pub use law::answers_once;
pub use real::RealDesk;
pub use top::run;
pub use verdict::Status;
