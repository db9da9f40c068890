//! Takes apart a relation file of version 2: its list of quadrants and its named roots, with the tests in order.
#![tactic(auto)]

mod apart;
mod extents;
pub mod form;
mod header;
mod heights;
mod numbers;
mod quads;
mod roots;
mod squares;
mod visits;
mod words;

pub use apart::take_apart;
pub use header::begins_shared;
