//! The least cost of going on from each level at each interval, and the first way of least cost.
//!
//! A way takes one move per interval. What a move costs in an interval is given, and so are the levels between which it may begin.
//! This crate knows nothing of tariffs or energy: a cost is a number, or says that the move may not be used there. The least costs are
//! kept at day ends alone; those inside a day are found again when they are wanted.
#![tactic(auto)]

mod days;
mod first;
mod least;
mod span;
mod steps;
mod ways;

pub use days::{backward_days, fill_day, first_cheapest_days};
pub use ways::{Move, Ways};
