ghost use Rattle.std.specs.Prelude.{false, ◌≡◌, [], ℕ, IfOk};
ghost use Rattle.rel_model.specs.Relation.{Relation, has, relation_of};
ghost use Rattle.rel_model.specs.Worker.{Worker, Stands, set_of, Keeps, Gives, HasCause};
ghost use Rattle.rel_plain.specs.Kept.{IsKept, worker_of};
ghost use Rattle.rel_plain.specs.KeptLaws.{valid_law, rows_law, cols_law, row_limit_law, col_limit_law};
ghost use Rattle.rel_plain.specs.Merge.{picked};

use crate::compose::composed;
use crate::grid::full_pairs;
use crate::kept::Kept;
use crate::merge::merged;
use crate::part::{COMMON, EITHER, FIRST_ALONE, Part};
use crate::search::{contains, share};
use crate::turn::turned;
use rel_model::core_trait::Core;
use rel_model::{Lack, Rel, Shape};
use std::alloc::Global;
use std::marker::Model;

/// The relations made so far, in order: the name of a relation is its place. A pair takes 8 bytes on the heap, and no
/// relation is dropped before the worker.
#[derive(Drop)]
pub struct Plain {
    alloc: Global,
    kept: Vec<Kept>,
}

impl Model for Plain {
    ghost use Rattle.std.specs.Prelude.{List};
    ghost use Rattle.rel_model.specs.Relation.{Relation};

    ghost Value = { List Relation };

    ghost view = { λ p. p.kept.items };
}

impl Plain {
    /// A worker that keeps no relation. It takes no memory.
    pub fn new(alloc: Global) -> Plain
        ensures { result ≡ [] }
    {
        Plain {
            alloc,
            kept: Vec::new(alloc),
        }
    }

    /// The pairs of a relation that stands.
    fn pairs_of(&self, r: Rel) -> &[(u32, u32)]
        requires { Stands (worker_of self.now) r }
        ensures kept { IsKept (record { rows = r.rows; cols = r.cols; pairs = result.now }) }
        ensures means { set_of (worker_of self.now) r ≡ relation_of r.rows r.cols
            (has (record { rows = r.rows; cols = r.cols; pairs = result.now })) }
    {
        let kept = &self.kept[r.root as usize];
        kept.pairs()
    }

    /// Keeps one more relation, after those that stand.
    fn keep(&mut self, rows: u32, cols: u32, pairs: Vec<(u32, u32)>) -> Result<Rel, Lack>
        requires { IsKept (record { rows = rows; cols = cols; pairs = pairs.items }) }
        ensures value { IfOk result (Gives (worker_of self.new) rows cols
            (relation_of rows cols (has (record { rows = rows; cols = cols; pairs = pairs.items })))) }
        ensures keeps { Keeps (worker_of self.old) (worker_of self.new) }
        ensures cause { HasCause false (worker_of self.old) (worker_of self.new) result }
    {
        let Ok(root) = u32::try_from(self.kept.len()) else {
            return Err(Lack::NoMemory);
        };
        self.kept.push(Kept::new(rows, cols, pairs))?;
        Ok(Rel { rows, cols, root })
    }

    /// The wanted pairs of two relations of one type.
    fn combined(&mut self, part: Part, r: Rel, s: Rel) -> Result<Rel, Lack>
        requires left { Stands (worker_of self.old) r }
        requires right { Stands (worker_of self.old) s }
        requires rows { r.rows ≡ s.rows }
        requires cols { r.cols ≡ s.cols }
        ensures value { IfOk result (Gives (worker_of self.new) r.rows r.cols
            (relation_of r.rows r.cols (λ i j. picked part (has (set_of (worker_of self.old) r) i j)
            (has (set_of (worker_of self.old) s) i j)))) }
        ensures keeps { Keeps (worker_of self.old) (worker_of self.new) }
        ensures cause { HasCause false (worker_of self.old) (worker_of self.new) result }
    {
        let pairs = merged(self.alloc, part, self.pairs_of(r), self.pairs_of(s))?;
        self.keep(r.rows, r.cols, pairs)
    }
}

impl Core for Plain {
    ghost worker = { worker_of };

    ghost lean = { false };

    // Lists have no nodes; the height is that of a table's blocks, so that callers may ask for it.
    ghost least = { 3 };

    ghost valid = { valid_law };

    ghost row_size = { rows_law };

    ghost col_size = { cols_law };

    ghost row_limit = { row_limit_law };

    ghost col_limit = { col_limit_law };

    /// `{}`: the empty relation, an empty list.
    fn empty(&mut self, shape: Shape) -> Result<Rel, Lack> {
        let alloc = self.alloc;
        self.keep(shape.rows, shape.cols, Vec::new(alloc))
    }

    /// `{(i, j) : i < rows, j < cols}`: the full relation, row by row.
    fn full(&mut self, shape: Shape) -> Result<Rel, Lack> {
        let pairs = full_pairs(self.alloc, shape.rows, shape.cols)?;
        self.keep(shape.rows, shape.cols, pairs)
    }

    /// `{(i, j)}`: the relation of one pair.
    fn single(&mut self, shape: Shape, i: u32, j: u32) -> Result<Rel, Lack> {
        let mut pairs = Vec::new(self.alloc);
        pairs.push((i, j))?;
        self.keep(shape.rows, shape.cols, pairs)
    }

    /// `{(i, j) : (i, j) in r or (i, j) in s}`: the union of two relations of one shape, by one merge.
    fn union(&mut self, r: Rel, s: Rel) -> Result<Rel, Lack> {
        self.combined(EITHER, r, s)
    }

    /// `{(i, j) : (i, j) in r and (i, j) in s}`: the intersection of two relations of one shape, by one merge.
    fn inter(&mut self, r: Rel, s: Rel) -> Result<Rel, Lack> {
        self.combined(COMMON, r, s)
    }

    /// `{(i, j) : (i, j) in r and not (i, j) in s}`: the difference of two relations of one shape, by one merge.
    fn diff(&mut self, r: Rel, s: Rel) -> Result<Rel, Lack> {
        self.combined(FIRST_ALONE, r, s)
    }

    /// `{(j, i) : (i, j) in r}`: the transposition, with each pair turned round and the list sorted by merging.
    fn transpose(&mut self, r: Rel) -> Result<Rel, Lack> {
        let pairs = turned(self.alloc, self.pairs_of(r))?;
        self.keep(r.cols, r.rows, pairs)
    }

    /// `{(i, k) : (i, j) in r and (j, k) in s for some j}`: the composition of a k × m and an m × n relation: each pair
    /// of r with its row of s, merged.
    fn compose(&mut self, r: Rel, s: Rel) -> Result<Rel, Lack> {
        let pairs = composed(self.alloc, self.pairs_of(r), self.pairs_of(s))?;
        self.keep(r.rows, s.cols, pairs)
    }

    /// `r = s`: the increasing lists of equal relations are equal.
    fn same(&self, r: Rel, s: Rel) -> bool {
        self.pairs_of(r) == self.pairs_of(s)
    }

    /// `(i, j) in r and (i, j) in s` for some i and j: each pair of r is looked up in s.
    fn meets(&mut self, r: Rel, s: Rel) -> bool {
        share(self.pairs_of(r), self.pairs_of(s))
    }

    /// `(i, j) in r`, by binary search.
    fn has(&mut self, r: Rel, i: u32, j: u32) -> bool {
        contains(self.pairs_of(r), i, j)
    }

    /// `r = {}`: no pair is kept.
    fn is_empty(&self, r: Rel) -> bool {
        self.pairs_of(r).is_empty()
    }
}
