//! Tests of numbers, lists and tiers, over public calls alone. It has nothing else, so that no crate is proved again for its tests.
#![tactic(auto)]

#[cfg(test)]
mod list;
#[cfg(test)]
mod num;
#[cfg(test)]
mod tier;
