//! Tests of months, schedules of periods and the starts of intervals, over public calls alone. It has nothing else, so that no crate is proved
//! again for its tests.
#![tactic(auto)]

#[cfg(test)]
mod cal;
#[cfg(test)]
mod starts;
