//! Exact numbers and their texts: decimals as the files write them, lists and grids in brackets, and money in USD, prices and whole
//! numbers as they are printed.
//!
//! A decimal is read without rounding, whatever its length and its exponent. A grid or a list that isn't of the form is refused at the
//! place up to which it is the beginning of one. Nothing here takes memory: a text is written at the front of a room that the caller has,
//! and a grid or the places of a list's items into the caller's own.
#![tactic(auto)]

mod brackets;
mod decimal;
mod grid;
mod items;
mod law;
mod row;
mod scan;
mod size;
mod text;

pub use decimal::{DecimalFault, read_decimal, read_floor};
pub use grid::{GridFault, read_grid};
pub use items::{Span, split_list};
pub use law::{reads_one_way, reads_or_not, reads_or_refuses, rounds_one_way, splits_one_way};
pub use text::{money_text, rate_text, whole_text};
