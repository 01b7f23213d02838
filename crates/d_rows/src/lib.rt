//! Rows of least costs in one block of memory: those at day ends, and a window of those of one day.
//!
//! A cost takes one 128-bit word, in which one number past every cost says that there is no way. A row can be lent for writing beside
//! the row after it for reading, with nothing copied. This crate knows nothing of moves, tariffs or energy.
#![tactic(auto)]

mod cuts;
mod days;
mod packed;
mod rows;

pub use days::DayLayers;
pub use packed::Packed;
