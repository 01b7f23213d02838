//! The words of a request and those that ask to see a tariff: what they are, and the readers that take them apart.
//!
//! It knows the commands, their options in the one order in which these stand, and which values an option takes. It knows no file and
//! no record: what a name or a label stands for, what a rule or a prior peak does to a bill and a budget to a plan, the crates above say.
#![tactic(auto)]

mod billing;
mod budget;
mod job;
mod law;
mod places;
mod plan_end;
mod request;
mod show;
mod values;
mod words;

pub use budget::Budget;
pub use law::{names_one_request, names_one_show};
pub use request::{Request, Task};
pub use show::{Show, read_show};
pub use words::read_words;
