//! Union, intersection and difference of quads: one recursion with the operator as an argument.
#![tactic(auto)]

mod ahead;
mod blocks;
mod boole;
mod cuts;
mod found;
mod leaf;
mod meet;
mod operators;

pub use meet::quads_meet;
pub use operators::{diff_quads, inter_quads, union_quads};
