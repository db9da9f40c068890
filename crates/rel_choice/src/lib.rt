//! Choice, tests and walks over pairs, over any worker that keeps relations as trees of quadrants.
#![tactic(auto)]

mod choosing;
mod columns;
mod counting;
mod images;
mod leaf;
mod lines;
mod rows;
mod stepping;
mod walking;

pub use choosing::{atom, init, point};
pub use counting::count;
pub use images::{dom, ran};
pub use lines::unival;
pub use stepping::next;
pub use walking::next_pair;
