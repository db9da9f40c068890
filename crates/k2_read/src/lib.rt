//! Reads relations from a file of version 2, each built from the leaves upwards.
#![tactic(auto)]

mod all;
mod build;
mod leaf;
mod named;
mod root;

pub use all::read_k2_all;
pub use named::read_k2_named;
