//! Generated scripts: eight scripts on random graphs, from a number.
#![tactic(auto)]

pub(crate) mod draws;
pub(crate) mod pieces;
pub mod scripts;

pub use scripts::{NoMemory, generate};
