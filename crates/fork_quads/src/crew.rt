//! A crew, made from a table and a seat, and giving the seat back.
ghost use Rattle.std.specs.Prelude.{◌≡◌, ◌≢◌, ◌≤◌};
ghost use Rattle.rel_model.specs.Words.{IsFull};
ghost use Rattle.rel_model.specs.Views.{IsOf};
ghost use Rattle.rel_model.specs.Quads.{Keeper};

use crate::fork::Team;
use crate::gate::Gate;
use pair_table::{PairTable, Seat};
use quad_nodes::Nodes;
use std::marker::Model;
use std::thread::Threads;

/// A worker on one seat of a node table, with what it needs to start threads. 48 bytes.
#[derive(Drop)]
pub struct Crew<'t, R: Threads + Sync, G: Gate + Sync> {
    pub(crate) team: Team<'t, R, G>,
    pub(crate) nodes: Nodes<'t>,
}

impl<'t, R: Threads + Sync, G: Gate + Sync> Model for Crew<'t, R, G> {
    ghost use Rattle.rel_model.specs.Quads.{Keeper};

    ghost Value = { Keeper };

    ghost view = { λ c. c.nodes };
}

impl<'t, R: Threads + Sync, G: Gate + Sync> Crew<'t, R, G> {
    /// A worker for the relations and quads of a table, at this seat. Its misses are the refusals that the seat counts,
    /// those before included.
    ///
    /// With more than one worker the five operators fork, and each piece of their work passes the gate. With one worker
    /// the gate is never called.
    pub fn new(
        rt: &'t R,
        table: &'t PairTable,
        seat: Seat,
        workers: u32,
        gate: &'t G,
    ) -> Crew<'t, R, G>
        requires some { 1 ≤ workers }
        requires few { workers ≤ 64 }
        requires of { IsOf seat table.now }
        ensures { result ≡ record { table = table.now; view = seat; misses = seat.refused } }
    {
        Crew {
            team: Team { rt, gate, workers },
            nodes: Nodes::new(table, seat),
        }
    }

    /// Gives the seat back.
    pub fn into_seat(self) -> Seat
        ensures view { result ≡ self.entry.view }
        ensures of { IsOf result self.entry.table }
        ensures full { self.entry.misses ≢ 0 → IsFull result.words }
    {
        self.nodes.into_seat()
    }
}
