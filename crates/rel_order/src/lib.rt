//! Orders and classes of elements, over any worker that keeps quadrant trees.
#![tactic(auto)]

mod bounds;
mod classes;
mod diagram;
mod extremes;
mod numbers;

pub use bounds::{lbd, ubd};
pub use classes::quot;
pub use diagram::hasse;
pub use extremes::{greatest, inf, least, sup};
pub use numbers::less;
