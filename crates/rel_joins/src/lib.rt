//! Compositions and transitive closures of scattered relations by lists of pairs, over any worker that keeps trees.
#![tactic(auto)]

mod closure;
mod columns;
mod index;
mod joining;
mod ordered;
mod paying;
mod postorder;
mod product;
mod reaching;
mod sampling;
mod squares;

pub use closure::close_by_lists;
pub use paying::scattered_pairs;
pub use product::compose_by_lists;
