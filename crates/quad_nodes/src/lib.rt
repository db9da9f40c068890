//! Squares of cells as quads of names: their quarters and corners, their blocks and rectangles.
#![tactic(auto)]

mod cells;
mod full;
mod halves;
mod memo;
mod nodes;
mod quads;
mod rects;
mod seats;
mod sides;

pub use nodes::Nodes;
pub use sides::side_of_height;
