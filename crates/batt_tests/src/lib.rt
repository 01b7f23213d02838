//! Tests of batteries and of the reader of their files, over public calls alone. They show what no clause says: that the names, the ranges
//! and the order of refusals are those of the documents.
#![tactic(auto)]

#[cfg(test)]
mod cases;
#[cfg(test)]
mod order;
#[cfg(test)]
mod reads;
