//! The tokens of a text.
#![tactic(auto)]

mod bytes;
mod ending;
mod lexer;
mod refusals;
mod tokens;
mod words;

pub use ending::{Ending, Flaw};
pub use lexer::lexed;
