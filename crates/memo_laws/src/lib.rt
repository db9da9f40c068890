//! Equations between names in the memo words of a table (a computed table): results are noted and looked up again.
#![tactic(auto)]

mod equation;
mod laws;
mod memo;
mod word;

pub use equation::{Equation, Op};
pub use laws::{equations_are_read_back, equations_stay};
pub use memo::{look, note};
