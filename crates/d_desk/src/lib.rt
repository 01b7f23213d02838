//! The desk of a program: the files it reads, the one output it writes, and what it prints.
//!
//! `Desk` is the trait that stands between a program and the world. It says by contract what each
//! call reads, keeps and prints, and counts its faults, so that a program can be proved to answer a
//! failure only where a call on its desk failed. `load_file`, `save_all` and `print_all` do whole
//! files and texts over any desk. `MemoryDesk` keeps its files in memory and fails at the calls
//! that it was told to, and `SureDesk` never fails. What the real file system holds, no contract
//! here says.
#![tactic(auto)]

mod desk;
mod fault;
mod kept;
mod load;
mod memory_desk;
mod opened;
mod plan;
mod send;
mod sure_desk;

pub use desk::Desk;
pub use fault::DeskFault;
pub use load::{LoadFault, load_file};
pub use memory_desk::MemoryDesk;
pub use opened::{Direction, Opened};
pub use plan::{DeskCall, PlannedFault};
pub use send::{print_all, save_all};
pub use sure_desk::SureDesk;
