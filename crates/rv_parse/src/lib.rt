//! Parses scripts: the tree that the tokens of a text spell.
#![tactic(auto)]

mod block;
mod command;
mod def;
mod expr;
mod forms;
mod halt;
mod law;
mod leaf;
mod operators;
mod rows;
mod script;
mod stmt;

pub use law::scripts_have_no_fault;
pub use script::parse;
