//! A table for each trial.
ghost use Rattle.rel_model.specs.Views.{IsOf};

use pair_table::{PairTable, Seat};
use std::alloc::Global;
use std::process::Abort;

/// A table of 2^20 node words, and its first seat.
pub(crate) fn table(rt: &impl Abort, alloc: Global) -> (PairTable, Seat)
    ensures { IsOf result.1 result.0 }
{
    match PairTable::make(alloc, 20, 1) {
        Ok(made) => made,
        Err(_) => panic!(rt; "no memory"),
    }
}
