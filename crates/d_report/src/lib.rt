//! The printed texts of plans, bills and tariffs, line by line.
//!
//! It knows what a problem and its tally say and what a tariff does, and nothing of files, words or how a schedule is found.
#![tactic(auto)]

mod charges;
mod dates;
mod finding;
mod hours;
mod lines;
mod periods;
mod plan;
mod shown;
mod tariff;

pub use charges::bill_text;
pub use dates::month_text;
pub use finding::{Finding, Found};
pub use lines::{line_text, put_line};
pub use plan::plan_text;
pub use shown::{put_behind_blank, put_shown};
pub use tariff::tariff_text;
