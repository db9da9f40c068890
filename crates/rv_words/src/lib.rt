//! The words of the command line: which are accepted, and what they say.
#![tactic(auto)]

pub(crate) mod command;
pub(crate) mod files;
pub(crate) mod numbers;
pub mod options;
pub(crate) mod parts;

pub use options::{Options, WordsError, words_of};
