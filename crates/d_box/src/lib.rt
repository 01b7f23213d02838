//! Boxes of peaks and totals: what a box holds, where it is split, and its halves.
//!
//! A box has a range for the highest demand of each group and for the import of each tiered period. This crate knows tables of tiers and
//! nothing of problems, schedules or bills. Nothing here takes memory.
#![tactic(auto)]

mod candidates;
mod cut;
mod held;
mod law;
mod places;
mod slopes;
mod space;
mod splits;
mod trials;

pub use candidates::Candidates;
pub use cut::halves;
pub use held::holds;
pub use law::{
    halves_are_boxes, halves_are_within, halves_keep_ends, halves_share_choices, peak_halves_cover,
    ranges_have_candidates, splits_are_cuts, splits_are_one, total_halves_cover,
};
pub use slopes::Slopes;
pub use space::{Range, Space, Split};
pub use splits::split_of;
pub use trials::{trial, trial_count};
