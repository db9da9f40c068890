//! Evaluates expressions of the whole language, over any engine.
#![tactic(auto)]

mod bases;
mod bounds;
mod call;
mod comparisons;
mod domain_calls;
mod early;
mod explaining;
mod faults;
mod halt;
mod here;
pub mod law;
mod missing;
mod names;
mod operators;
mod refusal;
mod shapes;
mod starts;
mod steps;
mod walk;

pub use call::{eval, eval_value};
pub use explaining::explain;
pub use halt::Refused;
pub use names::set;
