//! The basic operators on relations, passed on to the crew.
ghost use Rattle.std.specs.Prelude.{true};
ghost use Rattle.fork_quads.specs.Crew.{worker_of};
ghost use Rattle.fork_quads.specs.CrewLaws.{valid_law, rows_law, cols_law, row_limit_law, col_limit_law};

use crate::works::Works;
use fork_quads::Gate;
use rel_model::core_trait::Core;
use rel_model::{Lack, Rel, Shape};
use std::thread::Threads;

impl<'t, R: Threads + Sync, G: Gate + Sync> Core for Works<'t, R, G> {
    ghost worker = { worker_of };

    ghost lean = { true };

    ghost least = { 3 };

    ghost valid = { valid_law };

    ghost row_size = { rows_law };

    ghost col_size = { cols_law };

    ghost row_limit = { row_limit_law };

    ghost col_limit = { col_limit_law };

    /// `{}`: the empty relation.
    fn empty(&mut self, shape: Shape) -> Result<Rel, Lack> {
        self.crew.empty(shape)
    }

    /// `{(i, j) : i < rows, j < cols}`: the full relation.
    fn full(&mut self, shape: Shape) -> Result<Rel, Lack> {
        self.crew.full(shape)
    }

    /// `{(i, j)}`: a single pair.
    fn single(&mut self, shape: Shape, i: u32, j: u32) -> Result<Rel, Lack> {
        self.crew.single(shape, i, j)
    }

    /// `{(i, j) : (i, j) in r or (i, j) in s}`: the union.
    fn union(&mut self, r: Rel, s: Rel) -> Result<Rel, Lack> {
        self.crew.union(r, s)
    }

    /// `{(i, j) : (i, j) in r and (i, j) in s}`: the intersection.
    fn inter(&mut self, r: Rel, s: Rel) -> Result<Rel, Lack> {
        self.crew.inter(r, s)
    }

    /// `{(i, j) : (i, j) in r and not (i, j) in s}`: the difference.
    fn diff(&mut self, r: Rel, s: Rel) -> Result<Rel, Lack> {
        self.crew.diff(r, s)
    }

    /// `{(j, i) : (i, j) in r}`: the transposition.
    fn transpose(&mut self, r: Rel) -> Result<Rel, Lack> {
        self.crew.transpose(r)
    }

    /// `{(i, k) : (i, j) in r and (j, k) in s for some j}`: the composition.
    fn compose(&mut self, r: Rel, s: Rel) -> Result<Rel, Lack> {
        self.crew.compose(r, s)
    }

    /// `r = s`.
    fn same(&self, r: Rel, s: Rel) -> bool {
        self.crew.same(r, s)
    }

    /// `(i, j) in r and (i, j) in s` for some i and j.
    fn meets(&mut self, r: Rel, s: Rel) -> bool {
        self.crew.meets(r, s)
    }

    /// `(i, j) in r`.
    fn has(&mut self, r: Rel, i: u32, j: u32) -> bool {
        self.crew.has(r, i, j)
    }

    /// `r = {}`.
    fn is_empty(&self, r: Rel) -> bool {
        self.crew.is_empty(r)
    }
}
