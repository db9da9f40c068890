//! Quads as blocks in tree order, and back.
#![tactic(auto)]

mod dense;
mod gather;
mod spill;

pub use dense::blocks_pay;
pub use gather::gather_blocks;
pub use spill::{spill_blocks, spill_turned};
