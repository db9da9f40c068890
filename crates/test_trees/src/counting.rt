//! A worker that counts its compositions.
ghost use Rattle.std.specs.Prelude.{false};
ghost use Rattle.rel_model.specs.declared.Rel.{Rel};
ghost use Rattle.rel_plain.specs.Kept.{worker_of};
ghost use Rattle.rel_plain.specs.KeptLaws.{valid_law, rows_law, cols_law, row_limit_law, col_limit_law};

use rel_model::core_trait::Core;
use rel_model::{Lack, Rel, Shape};
use rel_plain::Plain;

/// Plain relations, and how often they were composed.
#[derive(Drop)]
pub struct Counting {
    pub plain: Plain,
    pub compositions: u64,
}

impl Core for Counting {
    ghost worker = { λ c. worker_of c.plain };

    ghost lean = { false };

    ghost least = { 3 };

    ghost valid = { λ c r h. valid_law c.plain r h };

    ghost row_size = { λ c r h. rows_law c.plain r h };

    ghost col_size = { λ c r h. cols_law c.plain r h };

    ghost row_limit = { λ c r h. row_limit_law c.plain r h };

    ghost col_limit = { λ c r h. col_limit_law c.plain r h };

    fn empty(&mut self, shape: Shape) -> Result<Rel, Lack> {
        self.plain.empty(shape)
    }

    fn full(&mut self, shape: Shape) -> Result<Rel, Lack> {
        self.plain.full(shape)
    }

    fn single(&mut self, shape: Shape, i: u32, j: u32) -> Result<Rel, Lack> {
        self.plain.single(shape, i, j)
    }

    fn union(&mut self, r: Rel, s: Rel) -> Result<Rel, Lack> {
        self.plain.union(r, s)
    }

    fn inter(&mut self, r: Rel, s: Rel) -> Result<Rel, Lack> {
        self.plain.inter(r, s)
    }

    fn diff(&mut self, r: Rel, s: Rel) -> Result<Rel, Lack> {
        self.plain.diff(r, s)
    }

    fn transpose(&mut self, r: Rel) -> Result<Rel, Lack> {
        self.plain.transpose(r)
    }

    fn compose(&mut self, r: Rel, s: Rel) -> Result<Rel, Lack> {
        self.compositions = self.compositions.saturating_add(1);
        self.plain.compose(r, s)
    }

    fn same(&self, r: Rel, s: Rel) -> bool {
        self.plain.same(r, s)
    }

    fn meets(&mut self, r: Rel, s: Rel) -> bool {
        self.plain.meets(r, s)
    }

    fn has(&mut self, r: Rel, i: u32, j: u32) -> bool {
        self.plain.has(r, i, j)
    }

    fn is_empty(&self, r: Rel) -> bool {
        self.plain.is_empty(r)
    }
}
