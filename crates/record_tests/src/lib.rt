//! Tests of the reader of records, over its public calls. They show what no clause says: that the rules, the columns' names and the order
//! of refusals are those of the documents.
#![tactic(auto)]

#[cfg(test)]
mod cases;
#[cfg(test)]
mod columns;
#[cfg(test)]
mod months;
#[cfg(test)]
mod order;
#[cfg(test)]
mod records;
#[cfg(test)]
mod whole;
