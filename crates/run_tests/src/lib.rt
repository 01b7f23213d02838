//! Tests of whole runs: over a desk in memory, and over real files through the real desk.
//!
//! They show what no clause says: the printed bytes as a reader sees them, with numbers worked out by other means than the program,
//! and what a real file or an interrupted call does.
#![tactic(auto)]

#[cfg(test)]
mod cases;
#[cfg(test)]
mod month;
#[cfg(test)]
mod plans;
#[cfg(test)]
mod readers;
#[cfg(test)]
mod real_files;
#[cfg(test)]
mod runs;
#[cfg(test)]
mod runtime;
#[cfg(test)]
mod shows;
#[cfg(test)]
mod steps;
