//! The open boxes of a search by their keys: the front, out of which the key that comes first is taken.
//!
//! All memory is taken when a front is made. This crate knows nothing of boxes, schedules or tariffs: of a box it has the bound, whether
//! it is a point, and a number.
#![tactic(auto)]

mod front;
mod key;

pub use front::Front;
pub use key::Key;
