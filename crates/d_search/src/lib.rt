//! The search for the schedule with the least bill: the tree of boxes that it grows, what it answers, and what holds of every answer.
//!
//! Most definitions are over an abstract record of rules, which says what the node, the schedule, the split and the halves of a box are; those
//! of a problem are one such record.
#![tactic(auto)]

mod boxes;
mod budget;
mod ends;
mod growth;
mod law;
mod leaves;
mod outcome;
mod room;
mod searches;
mod tree;

pub use budget::{PRODUCT_LIMIT, default_budget, product_of};
pub use law::{
    one_outcome, outcomes_are_there, searched_once, searches_form_trees, searches_keep_promises,
    searches_suffice,
};
pub use outcome::{Modes, Outcome, Verdict};
pub use room::Room;
pub use searches::search;
pub use tree::{Tree, TreeNode};
