//! Relation files of version 1: a header, and the bits of a relation's k²-tree with k = 2 (Brisaboa, Ladra and
//! Navarro).
#![tactic(auto)]

mod bits;
mod build;
mod corners;
mod counting;
mod header;
mod laws;
mod leaf;
mod levels;
mod limits;
pub mod numbers;
mod packing;
mod parts;
mod read;
mod refused;
mod root;
pub mod sides;
pub mod squares;
mod starts;
mod walk;
pub mod windows;
mod write;

pub use laws::files_laws;
pub use limits::HEADER;
pub use read::read_k2;
pub use refused::WriteRefused;
pub use write::write_k2;
