//! Tests of the search for the least bill, over public calls alone.
#![tactic(auto)]

#[cfg(test)]
mod budgets;
#[cfg(test)]
mod makers;
#[cfg(test)]
mod searches;
