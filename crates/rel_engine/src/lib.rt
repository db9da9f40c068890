//! The worker with all operations of the language, over a shared node table.
#![tactic(auto)]

mod identity;
mod operations;
mod relations;
mod remembering;
mod seats;
mod squares;
mod works;

pub use works::Works;
