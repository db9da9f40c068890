//! A seat at a table: one thread's right to step on it, with a ghost of what that thread knows.
use crate::rule::Known;
use std::marker::Model;

/// A seat at a table, which counts how often it was refused a place. It may be sent to another thread, and each call on
/// it sees its view. 16 bytes in all.
#[derive(Drop)]
pub struct Seat {
    pub(crate) inner: atomic_table::Seat<(), Known>,
    pub(crate) spare: u32,
    /// How often it was refused a place, up to 2^64 - 1.
    pub(crate) refused: u64,
}

impl Model for Seat {
    ghost use Rattle.rel_model.specs.Views.{View};
    ghost use Rattle.pair_table.specs.Held.{IsSeat, view_of};

    ghost Value = { View };

    ghost view = { λ s. view_of s.inner.table_id s.inner.me s.spare s.refused };

    ghost invariant = { λ s. IsSeat s.inner.me s.spare };
}
