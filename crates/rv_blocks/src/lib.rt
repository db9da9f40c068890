//! What atomic blocks of assignments read, and versions of names.
#![tactic(auto)]

mod names;
mod reads;
mod versions;

pub use names::names_in;
pub use reads::reads_of;
pub use versions::{Versions, first_changed};
