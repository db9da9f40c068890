//! Interned pairs and blocks (hash consing): a table of words shared by any number of seats, in which equal sets have
//! equal names.
#![tactic(auto)]

mod home;
mod laws;
mod probe;
mod rule;
mod seats;
mod steps;
mod table;

pub use home::home_of;
pub use laws::{kids_stand, names_are_sets, names_stay, pairs_stand};
pub use seats::Seat;
pub use table::PairTable;

/// The least number of bits of a table, which has `2^bits` node words.
pub const LEAST_BITS: u32 = 10;

/// The greatest number of bits of a table.
pub const MOST_BITS: u32 = 24;

/// How many memo words (a computed table) follow the node words.
pub const MEMO_SLOTS: u32 = 1 << 20;

/// Every place holds another word, so there is no place for this one. No bytes.
#[derive(Clone, Copy, Debug, PartialEq, Eq)]
pub struct Missed;
