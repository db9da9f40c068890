//! Residuals and the symmetric quotient, over any worker, by complement and composition.
#![tactic(auto)]

mod complement;
mod quotient;
mod residuals;

pub use quotient::syq;
pub use residuals::{left, right};
