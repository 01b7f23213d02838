//! Tests of the cheapest way, over public calls alone. It has nothing else, so that no crate is proved again for its tests.
#![tactic(auto)]

#[cfg(test)]
mod path;
