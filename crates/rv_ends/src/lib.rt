//! The ends of a run: the files that it is given, and the page, the lines and the files that it leaves behind.
#![tactic(auto)]

mod given;
mod lines;
mod writing;

pub use given::{Given, Halt, read_files};
pub use lines::{say_too_long, say_unread, say_usage};
pub use writing::tell;
