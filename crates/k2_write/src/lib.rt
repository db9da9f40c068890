//! Relation files of version 2: several named relations over one list of squares, in which no square occurs twice
//! (Brisaboa, Ladra and Navarro, for the tree; Bryant, for the sharing).
#![tactic(auto)]

mod listing;
mod text;
mod visits;
mod walk;
mod write;

pub use write::write_k2_all;
