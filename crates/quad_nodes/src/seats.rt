//! Keepers of quads as seats: made from one, split, joined, and given back as one.
ghost use Rattle.std.specs.Prelude.{◌≡◌, ◌<◌};
ghost use Rattle.rel_model.specs.Views.{IsOf};
ghost use Rattle.rel_model.specs.Quads.{Keeper, IsKeeper, SplitsKeeper, JoinsKeeper};

use crate::nodes::Nodes;
use pair_table::{PairTable, Seat};

impl<'t> Nodes<'t> {
    /// A keeper of quads at a seat of a table. Its misses are the refusals that the seat counts, those before included.
    pub fn new(table: &'t PairTable, seat: Seat) -> Nodes<'t>
        requires of { IsOf seat table.now }
        ensures value { result ≡ record { table = table.now; view = seat; misses = seat.refused } }
        ensures work { IsKeeper result }
    {
        Nodes { table, seat }
    }

    /// Splits off a second keeper, which knows the same, gets `spare` spare seats, and has missed nothing.
    pub fn split(&mut self, spare: u32) -> Nodes<'t>
        requires fewer { spare < self.old.view.spare }
        ensures { SplitsKeeper spare self.old self.new result }
    {
        let seat = self.table.split(&mut self.seat, spare);
        Nodes {
            table: self.table,
            seat,
        }
    }

    /// How many seats may still be split off.
    pub fn spare(&self) -> u32
        ensures { result ≡ self.now.view.spare }
    {
        self.table.spare(&self.seat)
    }

    /// Joins another keeper into this one, which then knows what either knew and counts the misses of both.
    pub fn join(&mut self, other: Nodes<'t>)
        requires one_table { other.table ≡ self.old.table }
        ensures { JoinsKeeper self.old other.entry self.new }
    {
        let Nodes { table: _, seat } = other;
        self.table.join(&mut self.seat, seat);
    }

    /// Gives the seat back.
    pub fn into_seat(self) -> Seat
        ensures view { result ≡ self.entry.view }
        ensures work { IsKeeper self.entry }
    {
        self.seat
    }
}
