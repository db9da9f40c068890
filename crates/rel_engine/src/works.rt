//! An engine is made over a crew, and gives its seat back in the end.
ghost use Rattle.std.specs.Prelude.{◌≡◌, ◌≢◌};
ghost use Rattle.rel_model.specs.Words.{IsFull};
ghost use Rattle.rel_model.specs.Views.{IsOf};
ghost use Rattle.rel_model.specs.Quads.{Keeper};

use fork_quads::{Crew, Gate};
use pair_table::Seat;
use rel_slices::Remembered;
use std::marker::Model;
use std::thread::Threads;

/// A worker over a node table that does all operations of the language, and remembers the lines of some thin relations,
/// the pairs of at most four relations, and some transpositions. Some 8 KB, nearly all of it for the lines, and 8 bytes
/// for each pair.
#[derive(Drop)]
pub struct Works<'t, R: Threads + Sync, G: Gate + Sync> {
    pub(crate) crew: Crew<'t, R, G>,
    pub(crate) remembered: Remembered,
}

impl<'t, R: Threads + Sync, G: Gate + Sync> Model for Works<'t, R, G> {
    ghost use Rattle.rel_model.specs.Quads.{Keeper};
    ghost use Rattle.rel_engine.specs.Remembered.{IsRemembered};

    ghost Value = { Keeper };

    ghost view = { λ w. w.crew };

    ghost invariant = { λ w. IsRemembered w.crew w.remembered };
}

impl<'t, R: Threads + Sync, G: Gate + Sync> Works<'t, R, G> {
    /// An engine over a crew's table and seat.
    pub fn new(crew: Crew<'t, R, G>) -> Works<'t, R, G>
        ensures { result ≡ crew.entry }
    {
        Works {
            crew,
            remembered: Remembered::none(),
        }
    }

    /// Gives the seat back.
    pub fn into_seat(self) -> Seat
        ensures view { result ≡ self.entry.view }
        ensures of { IsOf result self.entry.table }
        ensures full { self.entry.misses ≢ 0 → IsFull result.words }
    {
        self.crew.into_seat()
    }
}
