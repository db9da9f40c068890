//! Tests of `rv_compact` over the node table: what is moved and what is left behind, when it is refused, and that work
//! goes on with a table over the new words.
#![tactic(auto)]

#[cfg(test)]
mod slow;
pub mod standing;
#[cfg(test)]
mod tests;
#[cfg(test)]
mod trees;
