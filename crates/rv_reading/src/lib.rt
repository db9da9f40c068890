//! Laws of readings: what a run decides depends only on the trees of its scripts, so it does not matter which reading
//! of its texts a run uses.
#![tactic(auto)]

mod laws;

pub use laws::{every_reading_runs, inputs_go_by_trees, items_go_by_trees, scripts_go_by_trees};
