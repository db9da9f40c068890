//! The book of names that sessions share: its names, its history, and the archive in which their relations stand.
#![tactic(auto)]

mod book;
mod committing;
mod dropping;
mod giving;
mod kept;
mod reading;
mod refused;

pub use book::Book;
pub use reading::View;
pub use refused::{CommitRefused, DropRefused};
