//! Tests of the reader of net meter readings, over public calls alone. It has nothing else, so that no crate is proved again for its tests.
#![tactic(auto)]

#[cfg(test)]
mod files;
#[cfg(test)]
mod months;
#[cfg(test)]
mod order;
