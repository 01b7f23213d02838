//! The writer of certificates: what a search found and the tree that shows it, line by line onto a desk.
//!
//! Each line is saved by itself, so that a run that is cut short leaves a front of the text. The layers of a leaf are made anew for each leaf,
//! and no more than one line is held.
#![tactic(auto)]

mod found;
mod head;
mod leaf;
mod line;
mod save;
mod tree;
mod write;

pub use write::write_certificate;
