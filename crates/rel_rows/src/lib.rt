//! One row of a relation, and a relation with one row added, over any worker that keeps quadrant trees: both walk down
//! the tree along this row only.
#![tactic(auto)]

mod adding;
mod leaf;
mod merging;
mod strips;
mod taking;

pub use adding::with_row;
pub use taking::row;
