//! Quads as rows of bits, and back.
#![tactic(auto)]

mod compose;
mod cut;
mod gather;
mod spill;
mod squares;

pub use compose::{add_product, compose_by_rows};
pub use gather::gather_quad;
pub use spill::spill_quad;
pub use squares::{Squares, add_four_products};
