//! Workers that share one table and can be split and joined.
ghost use Rattle.std.specs.Prelude.{◌<◌};
ghost use Rattle.rel_model.specs.Seats.{Kin, SplitsWorker, JoinsWorker};

use crate::quads_trait::Quads;

/// A worker from which others are split off, and into which they are joined again. Neither call allocates memory.
pub trait Seated: Quads {
    /// Splits off a second worker, in which everything stands that stands here. The second gets `spare` of the spare
    /// workers.
    fn split(&mut self, spare: u32) -> Self
        requires fewer { spare < (Self.worker self.old).spare }
        ensures { SplitsWorker spare (Self.worker self.old) (Self.worker self.new) (Self.worker result) };

    /// Joins another worker of the same table into this one: everything stands that stood in either.
    fn join(&mut self, other: Self)
        requires kin { Kin (Self.worker other) (Self.worker self.old) }
        ensures { JoinsWorker (Self.worker self.old) (Self.worker other) (Self.worker self.new) };
}
