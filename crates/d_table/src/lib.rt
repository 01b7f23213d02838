//! A file as a table of cells, over the kit's csv reader: rows of trimmed cells under a header, whose columns are found by name.
//!
//! Each row of a table has as many cells as its header; a file with another row is refused by that row's number. What a cell says
//! and which columns a file has to have is for the callers.
#![tactic(auto)]

mod block;
mod cell;
mod choice;
mod read;
mod reading;
mod table;

pub use read::{read_table, read_where};
pub use table::{Table, TableFault, is_named};
