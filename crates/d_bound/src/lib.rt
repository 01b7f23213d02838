//! The bounds of a problem's boxes, each found over the ways of its battery's modes.
//!
//! It joins the problem of a month to the ways through a battery's levels, and knows no tariff, file or text.
#![tactic(auto)]

mod bound;
mod bounder;
mod caps;
mod costs;
mod law;
mod node;
mod rates;
mod roots;
mod slopes;
mod ways;

pub use bounder::Bounder;
pub use law::{
    bills_are_reached, bounds_are_below, bounds_come_with_bills, bounds_rise, boxes_have_first,
    halves_are_boxes, halves_hold, points_meet, relaxed_are_small, roots_are_boxes, roots_hold,
};
pub use node::Node;
