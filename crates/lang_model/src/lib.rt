//! The language: its trees and tokens, its grammar and faults, and what its expressions mean and cost.
#![tactic(auto)]

mod base_text;
pub mod faults;
pub mod laws;
pub mod limits;
pub mod names;
pub mod rows;
pub mod syntax;
pub mod token;
