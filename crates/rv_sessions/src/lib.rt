//! Sessions: each runs a script on the book of names that all sessions share.
#![tactic(auto)]

mod block;
mod by;
mod dropping;
mod explain;
mod files;
mod form;
mod giving;
mod item;
mod listing;
mod loading;
mod saving;
mod seat;
mod session;
mod setting;
mod showing;
mod snapshots;
mod task;
mod told;
mod transcript;
mod turns;
mod value;

pub use seat::Seat;
pub use session::run;
pub use setting::Setting;
pub use transcript::{Reply, Transcript};
