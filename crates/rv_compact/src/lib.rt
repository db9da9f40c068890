//! The nodes that relations reach, moved from the words of one table into those of a fresh one.
#![tactic(auto)]

mod compacting;
mod copy;
mod heights;
mod place;
mod walk;

pub use compacting::{CompactRefused, compact};
