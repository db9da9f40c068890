//! The image of a vector by a relation, over any worker that keeps quadrant trees. It takes one walk of the relation,
//! with the vector as a heap of bytes.
#![tactic(auto)]

mod images;
mod leaf;
mod listed;
mod marking;
mod naming;
mod paying;
mod quarters;
mod reaching;
mod spreading;
mod walking;

pub use images::{image, image_of_pairs};
