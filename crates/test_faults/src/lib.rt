//! What `parse` refuses and how expressions are printed, as lines of text, and tests of both that do not fit into a
//! table.
#![tactic(auto)]

mod fault;
#[cfg(test)]
mod tests;
mod text;

pub use fault::{refusal, reply};
pub use text::printed;
