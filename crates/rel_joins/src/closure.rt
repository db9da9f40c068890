//! The transitive closure of a relation by lists of its pairs.
ghost use Rattle.std.specs.Prelude.{◌≡◌, ◌<◌, IfOk, IfSome, IfNone};
ghost use Rattle.rel_model.specs.Relation.{IsIncreasing};
ghost use Rattle.rel_model.specs.Closures.{transitive_closure};
ghost use Rattle.rel_model.specs.Listed.{AreWithin};
ghost use Rattle.rel_model.specs.Worker.{Stands, set_of, Gives, Keeps, MakesAtMost, HasCause, derived_room};
ghost use Rattle.rel_joins.specs.Starts.{IsIndex};

use crate::index::index_of;
use crate::ordered::{close_in_order, in_order};
use crate::paying::{SPARSE, SPARSE_IN_ORDER, pays_to_close};
use crate::reaching::close_rows;
use rel_domains::from_pairs_or_none;
use rel_listing::pairs_within;
use rel_model::quads_trait::Quads;
use rel_model::{Lack, Rel, Shape};
use std::alloc::Global;

/// The closure by searches from each element in turn. `None`: it has more than one pair for so many cells, or there is
/// no memory; no node has been made then.
fn close_by_search<Q: Quads>(
    alloc: Global,
    q: &mut Q,
    r: Rel,
    pairs: &[(u32, u32)],
    starts: &[usize],
    cells_a_pair: u64,
) -> Result<Option<Rel>, Lack>
    requires standing { Stands (Q.worker q.old) r }
    requires square { r.rows ≡ r.cols }
    requires large { 256 < r.rows }
    requires some { 0 < cells_a_pair }
    requires is { pairs.now ≡ (set_of (Q.worker q.old) r).pairs }
    requires index { IsIndex r.rows pairs.now starts.now }
    ensures value { IfOk result (λ given. IfSome given (Gives (Q.worker q.new) r.rows r.cols
        (transitive_closure (set_of (Q.worker q.old) r)))) }
    ensures keeps { Keeps (Q.worker q.old) (Q.worker q.new) }
    ensures nothing { IfOk result (λ given. IfNone given (MakesAtMost 0 (Q.worker q.old) (Q.worker q.new))) }
    ensures room { MakesAtMost (derived_room r.rows r.rows r.rows) (Q.worker q.old) (Q.worker q.new) }
    ensures cause { HasCause Q.lean (Q.worker q.old) (Q.worker q.new) result }
{
    let Some(closed) = close_rows(alloc, r.rows, pairs, starts, cells_a_pair) else {
        return Ok(None);
    };
    let shape = Shape {
        rows: r.rows,
        cols: r.cols,
    };
    from_pairs_or_none(alloc, q, shape, &closed)
}

/// The closure of the pairs of a relation: by rows of bits if they do not go in a circle and it is not sparse.
fn close_pairs<Q: Quads>(
    alloc: Global,
    q: &mut Q,
    r: Rel,
    pairs: &[(u32, u32)],
) -> Result<Option<Rel>, Lack>
    requires standing { Stands (Q.worker q.old) r }
    requires square { r.rows ≡ r.cols }
    requires large { 256 < r.rows }
    requires is { pairs.now ≡ (set_of (Q.worker q.old) r).pairs }
    ensures value { IfOk result (λ given. IfSome given (Gives (Q.worker q.new) r.rows r.cols
        (transitive_closure (set_of (Q.worker q.old) r)))) }
    ensures keeps { Keeps (Q.worker q.old) (Q.worker q.new) }
    ensures nothing { IfOk result (λ given. IfNone given (MakesAtMost 0 (Q.worker q.old) (Q.worker q.new))) }
    ensures room { MakesAtMost (derived_room r.rows r.rows r.rows) (Q.worker q.old) (Q.worker q.new) }
    ensures cause { HasCause Q.lean (Q.worker q.old) (Q.worker q.new) result }
{
    let Ok(starts) = index_of(alloc, r.rows, pairs) else {
        return Ok(None);
    };
    let Some(ordered) = in_order(alloc, q, r, pairs, &starts) else {
        return close_by_search(alloc, q, r, pairs, &starts, SPARSE);
    };
    match close_by_search(alloc, q, r, pairs, &starts, SPARSE_IN_ORDER) {
        Ok(Some(closure)) => Ok(Some(closure)),
        Ok(None) => match close_in_order(q, r, pairs, &starts, ordered) {
            Ok(closure) => Ok(Some(closure)),
            Err(lack) => Err(lack),
        },
        Err(lack) => Err(lack),
    }
}

/// `trans(R)`: the transitive closure of a square relation, the pairs joined by a walk of at least one step, by lists
/// of pairs.
///
/// Lists the pairs and searches from each element in turn, and makes the tree of the pairs that were found, so nothing
/// is squared. If many are found and the pairs do not go in a circle, unites rows of bits in depth-first postorder in
/// place of that. `None`: lists do not pay here, or there is no memory for them; no node has been made then.
pub fn close_by_lists<Q: Quads>(alloc: Global, q: &mut Q, r: Rel) -> Result<Option<Rel>, Lack>
    requires standing { Stands (Q.worker q.old) r }
    requires square { r.rows ≡ r.cols }
    ensures value { IfOk result (λ given. IfSome given (Gives (Q.worker q.new) r.rows r.cols
        (transitive_closure (set_of (Q.worker q.old) r)))) }
    ensures keeps { Keeps (Q.worker q.old) (Q.worker q.new) }
    ensures nothing { IfOk result (λ given. IfNone given (MakesAtMost 0 (Q.worker q.old) (Q.worker q.new))) }
    ensures room { MakesAtMost (derived_room r.rows r.rows r.rows) (Q.worker q.old) (Q.worker q.new) }
    ensures cause { HasCause Q.lean (Q.worker q.old) (Q.worker q.new) result }
{
    let Some(most) = pays_to_close(q, r) else {
        return Ok(None);
    };
    let Some(pairs) = pairs_within(alloc, q, r, most) else {
        return Ok(None);
    };
    close_pairs(alloc, q, r, &pairs)
}
