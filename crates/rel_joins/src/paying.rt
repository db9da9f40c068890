//! Whether lists pay. No result depends on it.
ghost use Rattle.std.specs.Prelude.{◌<◌, IfSome};
ghost use Rattle.rel_model.specs.Worker.{Stands, HasQuad};
ghost use Rattle.rel_steps.specs.Reading.{OnlyReads};

use crate::sampling::sampled;
use rel_model::quads_trait::Quads;
use rel_model::{Quad, Rel};

/// Up to this size, the recursion on trees is fast enough.
const SMALL: u32 = 256;

/// How many pairs of an operand are listed at most.
const MOST_LISTED: u64 = 1 << 22;

/// A closure is left to trees if there are more pairs than this for each row, since it is hardly sparse then.
const THIN: u64 = 4;

/// A closure may have so many full rows among its first ones, as that of a tree has, and still be sparse.
const FULL_ROWS: u64 = 8;

/// A product is left to trees if it may fill more than one cell in so many, and a closure if it does.
pub(crate) const SPARSE: u64 = 64;

/// A closure that can be found by rows of bits is, if it fills more than one cell in so many.
pub(crate) const SPARSE_IN_ORDER: u64 = 512;

/// With fewer pairs than one for so many rows, an index of the rows costs more than the recursion on trees.
const ROWS_A_PAIR: u64 = 16;

/// How many pairs a quad may have, if a sample says that it is scattered, and 0 if not.
fn estimate<Q: Quads>(q: &mut Q, quad: Quad) -> u64
    requires stands { HasQuad (Q.worker q.old) quad }
    ensures reads { OnlyReads (Q.worker q.old) (Q.worker q.new) }
{
    if quad.is_empty() {
        return 0;
    }
    let met = sampled(q, quad);
    if met.is_scattered() { met.pairs() } else { 0 }
}

/// How many pairs a large scattered relation may have, by a sample: most of its quads are distinct, so a list of its
/// pairs serves better than what is remembered of quads. `None`: it is no such relation.
pub fn scattered_pairs<Q: Quads>(q: &mut Q, r: Rel) -> Option<u64>
    requires stands { Stands (Q.worker q.old) r }
    ensures reads { OnlyReads (Q.worker q.old) (Q.worker q.new) }
{
    if r.rows <= SMALL && r.cols <= SMALL {
        return None;
    }
    let root = q.root(r);
    let pairs = estimate(q, root);
    if pairs == 0 {
        return None;
    }
    Some(pairs)
}

/// How many pairs are listed at most where so many were estimated.
fn listed_at_most(pairs: u64) -> usize {
    let most = pairs.saturating_mul(2).saturating_add(1000);
    most.min(MOST_LISTED) as usize
}

/// Whether operands with so many pairs have a sparse product that takes few steps to join.
fn is_sparse(rows: u32, middle: u32, cols: u32, lefts: u64, rights: u64) -> bool
    requires some { 0 < middle }
{
    if lefts == 0 || rights == 0 || lefts > MOST_LISTED || rights > MOST_LISTED {
        return false;
    }
    if u64::from(middle) / ROWS_A_PAIR > lefts.saturating_add(rights) {
        return false;
    }
    let joined = lefts.saturating_mul(rights) / u64::from(middle);
    let cells = u64::from(rows).saturating_mul(u64::from(cols));
    joined <= MOST_LISTED && joined <= cells / SPARSE
}

/// How many pairs of both relations are listed at most, if composition by lists pays: both are large, scattered and
/// thin, and so is the product.
pub(crate) fn pays<Q: Quads>(q: &mut Q, r: Rel, s: Rel) -> Option<(usize, usize)>
    requires left { Stands (Q.worker q.old) r }
    requires right { Stands (Q.worker q.old) s }
    ensures large { IfSome result (λ _. 256 < r.rows) }
    ensures reads { OnlyReads (Q.worker q.old) (Q.worker q.new) }
{
    if r.rows <= SMALL || r.cols <= SMALL || s.cols <= SMALL {
        return None;
    }
    let left = q.root(r);
    let right = q.root(s);
    let lefts = estimate(q, left);
    if lefts == 0 {
        return None;
    }
    let rights = estimate(q, right);
    if !is_sparse(r.rows, r.cols, s.cols, lefts, rights) {
        return None;
    }
    Some((listed_at_most(lefts), listed_at_most(rights)))
}

/// Whether so many pairs in the first rows of a closure of `n` elements are few enough for lists: no more than one for
/// each `cells_a_pair` cells, beside `FULL_ROWS` full rows.
pub(crate) fn is_sparse_so_far(n: u32, rows: u32, pairs: usize, cells_a_pair: u64) -> bool
    requires { 0 < cells_a_pair }
{
    let cells = u64::from(n).saturating_mul(u64::from(rows));
    pairs as u64
        <= u64::from(n)
            .saturating_mul(FULL_ROWS)
            .saturating_add(cells / cells_a_pair)
}

/// How many pairs of a relation are listed at most, if its transitive closure by lists pays: the relation is large,
/// scattered and thin.
pub(crate) fn pays_to_close<Q: Quads>(q: &mut Q, r: Rel) -> Option<usize>
    requires stands { Stands (Q.worker q.old) r }
    ensures large { IfSome result (λ _. 256 < r.rows) }
    ensures reads { OnlyReads (Q.worker q.old) (Q.worker q.new) }
{
    if r.rows <= SMALL {
        return None;
    }
    let root = q.root(r);
    let pairs = estimate(q, root);
    let least = u64::from(r.rows) / ROWS_A_PAIR;
    let most = u64::from(r.rows).saturating_mul(THIN).min(MOST_LISTED);
    if pairs == 0 || pairs < least || pairs > most {
        return None;
    }
    Some(listed_at_most(pairs))
}
