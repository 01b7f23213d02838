//! Tests of the bounds of a problem's boxes, over public calls alone.
#![tactic(auto)]

#[cfg(test)]
mod demand;
#[cfg(test)]
mod february;
#[cfg(test)]
mod makers;
