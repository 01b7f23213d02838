//! Lists that a contract sees as lists of what they hold, and the order of lists of numbers.
//!
//! The crates above keep their readings, modes, periods and columns in them. Only making and growing a list takes memory.
#![tactic(auto)]

mod items;

pub use items::Items;
