//! Checks, before a script runs, whether its names, arguments, assignments and ranks of definitions are right, and
//! finds the first fault; finds the static types of expressions.
#![tactic(auto)]

mod bases;
mod checked;
mod declarations;
mod definitions;
mod expression;
mod found;
mod head;
mod item;
mod items_by_name;
pub mod laws;
mod misfits;
mod names;
mod operators;
mod scope;
mod shape;
mod sizes;
mod statement;
mod types_of_names;
mod typing;
mod typing_steps;

pub use checked::{Checked, check};
pub use shape::shape_of;
