//! Relations from lists of pairs, and the relations of products, sums and power sets, over any worker that keeps
//! quadrant trees.
#![tactic(auto)]

mod build;
mod curve;
mod cut;
mod element;
mod heights;
pub mod laws;
mod leaf;
mod limit;
mod lone;
mod missing;
mod pairing;
mod pairs;
mod power_set;
mod products;
mod row;
mod rule;
mod singles;
mod square;
mod sums;
mod vector;

pub use pairing::fork;
pub use pairs::{from_pairs, from_pairs_or_none};
pub use power_set::epsi;
pub use products::{first, second};
pub use sums::{inl, inr};
pub use vector::inj;
