//! The texts of replies: matrices, listings, counts, types, steps of rewriting, refusals, and lines of the history.
#![tactic(auto)]

mod faults;
mod history;
mod limits;
mod marked;
mod pairs;
mod pieces;
mod refused;
mod rows;
mod sizes;
mod steps;

pub use faults::fault_text;
pub use history::event_line;
pub use limits::{may_list, may_print};
pub use marked::matrix_of;
pub use pairs::{listing, listing_of};
pub use refused::PrintRefused;
pub use rows::matrix;
pub use sizes::{count_line, number_line, shape_text};
pub use steps::steps_text;
