//! Runs: what a run is given, its events and outcomes, which of them are lawful, what it shows, saves and costs, and
//! what the words of its tables hold.
#![tactic(auto)]

pub mod batch;
pub mod event;
pub mod files;
pub mod laws;
pub mod limits;
pub mod outcome;
