//! Transposition and composition of quads.
#![tactic(auto)]

mod compose;
mod dense;
mod distinct;
mod join;
mod large;
mod product;
mod rows;
mod sums;
mod transpose;
mod window;

pub use compose::{compose_quads, compose_up_to};
pub use distinct::distinct_under;
pub use join::{joined_by_rows, joins_by_rows};
pub use transpose::transpose_quad;
pub use window::{compose_window, goes_by_sums};
