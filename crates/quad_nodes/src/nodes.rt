//! A keeper of quads: a table and a seat at it, which counts the misses.
use pair_table::{PairTable, Seat};
use std::marker::Model;

/// A table, and a seat at it. The misses of the keeper are the refusals that the seat counts. 24 bytes.
#[derive(Drop)]
pub struct Nodes<'t> {
    pub(crate) table: &'t PairTable,
    pub(crate) seat: Seat,
}

impl<'t> Model for Nodes<'t> {
    ghost use Rattle.rel_model.specs.Quads.{Keeper, IsKeeper};

    ghost Value = { Keeper };

    ghost view = { λ n. record { table = n.table.now; view = n.seat; misses = n.seat.refused } };

    ghost invariant = { λ n. IsKeeper (record { table = n.table.now; view = n.seat; misses = n.seat.refused }) };
}
