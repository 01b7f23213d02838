//! Where a cell stands in a record of the Utility Rate Database's bulk file: the names of its columns, which of them a row's tiers have, and
//! which nothing is read from.
//!
//! It knows the columns' names and how tiers are counted. It knows nothing of what a cell says, of refusals or of tariffs. Only its index of
//! columns takes memory, and names of tiers past the last that a period has room for, while they are compared.
#![tactic(auto)]

mod cells;
mod holes;
mod ignored;
mod index;
mod month_list;
mod names;
mod past;
mod reading;
mod tier;

pub use cells::Cells;
pub use month_list::MonthList;
pub use names::{PERIODS, Part, Structure, TIERS};
