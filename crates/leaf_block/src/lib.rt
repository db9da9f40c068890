//! Blocks: sets of cells in 8 rows and 8 columns, one word each, where cell (i, j) is bit 8 * i + j.
#![tactic(auto)]

mod compose;
pub mod laws;
mod rect;
mod transpose;
mod words;

pub use compose::block_compose;
pub use rect::block_rect;
pub use transpose::block_transpose;
pub use words::{block_diff, block_inter, block_union};
