//! Tests of boxes, over public calls alone.
#![tactic(auto)]

#[cfg(test)]
mod peaks;
#[cfg(test)]
mod totals;
