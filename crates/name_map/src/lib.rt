//! Maps from names, in the order of the names' bytes.
#![tactic(auto)]

mod giving;
mod map;

pub use giving::{put_all, put_noted, take_back};
pub use map::NameMap;
