//! Prints expressions so that they are read back as the same; and a text spells at most one script.
#![tactic(auto)]

mod law;
mod print;

pub use law::{one_script, same_except_places};
pub use print::print_expr;
