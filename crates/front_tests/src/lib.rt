//! Tests of the front, over public calls alone. It has nothing else, so that no crate is proved again for its tests.
#![tactic(auto)]

#[cfg(test)]
mod front;
