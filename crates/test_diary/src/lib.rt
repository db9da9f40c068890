//! Tests of the turn book: a diary that sessions write concurrently, each command in a turn of its own, with what is
//! proved of it.
#![tactic(auto)]

mod diary;
mod racing;
mod sessions;
#[cfg(test)]
mod tests;

pub use diary::Diary;
pub use racing::{Report, race};
pub use sessions::{Work, run_work, session};
