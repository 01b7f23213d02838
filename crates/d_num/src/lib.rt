//! Exact numbers of a bill: money, prices, energy and power, each a whole number of a small unit within a stated range, and the cost
//! of a way that may not be there.
//!
//! Nothing here is rounded and nothing takes memory. A sum, a difference or a product is the plain one; that it is in range is
//! the caller's to show.
#![tactic(auto)]

use std::alloc::{AllocError, AllocFailed};

mod amount;
mod pot;

pub use amount::{Money, Rate, Watt, Wh};
pub use pot::Pot;

/// Memory was wanted and there was none. It is answered by calls that take memory and is never merged with another answer.
#[derive(Clone, Copy, Debug, PartialEq, Eq)]
pub struct NoMemory;

impl From<AllocError> for NoMemory {
    fn from(_error: AllocError) -> NoMemory {
        NoMemory
    }
}

impl<T: Drop> From<AllocFailed<T>> for NoMemory {
    fn from(_failed: AllocFailed<T>) -> NoMemory {
        NoMemory
    }
}
