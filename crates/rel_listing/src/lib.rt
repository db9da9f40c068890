//! The pairs of a relation in order, over any worker that keeps quadrant trees.
#![tactic(auto)]

mod halving;
mod listing;
mod rows;
mod words;

pub use listing::{pairs_of, pairs_within};
