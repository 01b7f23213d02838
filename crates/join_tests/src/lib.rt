//! Tests of the problem that a record's tariff, readings and a battery are joined to, over public calls alone: the bills of months that were
//! worked by hand, one of them printed, schedules, and a shown tariff.
#![tactic(auto)]

#[cfg(test)]
mod february;
#[cfg(test)]
mod office;
#[cfg(test)]
mod printed;
#[cfg(test)]
mod rows;
#[cfg(test)]
mod schedules;
#[cfg(test)]
mod shown;
