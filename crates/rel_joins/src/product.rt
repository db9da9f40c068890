//! The composition of two relations by lists of their pairs.
ghost use Rattle.std.specs.Prelude.{◌≡◌, IfOk, IfSome, IfNone};
ghost use Rattle.rel_model.specs.Operators.{compose as compose_of};
ghost use Rattle.rel_model.specs.Worker.{Stands, set_of, Gives, Keeps, MakesAtMost, HasCause, product_room};

use crate::joining::join;
use crate::paying::pays;
use rel_domains::from_pairs_or_none;
use rel_listing::pairs_within;
use rel_model::quads_trait::Quads;
use rel_model::{Lack, Rel, Shape};
use std::alloc::Global;

/// `{(i, k) : (i, j) in r and (j, k) in s for some j}`: the composition of a k × m and an m × n relation, by lists of
/// their pairs.
///
/// Lists the pairs of both, joins them row by row, and makes the tree of what was joined, so no product of quads is
/// made on the way. `None`: lists do not pay here, or there is no memory for them; no node has been made then.
pub fn compose_by_lists<Q: Quads>(
    alloc: Global,
    q: &mut Q,
    r: Rel,
    s: Rel,
) -> Result<Option<Rel>, Lack>
    requires left { Stands (Q.worker q.old) r }
    requires right { Stands (Q.worker q.old) s }
    requires middle { r.cols ≡ s.rows }
    ensures value { IfOk result (λ given. IfSome given (Gives (Q.worker q.new) r.rows s.cols
        (compose_of (set_of (Q.worker q.old) r) (set_of (Q.worker q.old) s)))) }
    ensures keeps { Keeps (Q.worker q.old) (Q.worker q.new) }
    ensures nothing { IfOk result (λ given. IfNone given (MakesAtMost 0 (Q.worker q.old) (Q.worker q.new))) }
    ensures room { MakesAtMost (product_room r.rows r.cols s.cols) (Q.worker q.old) (Q.worker q.new) }
    ensures cause { HasCause Q.lean (Q.worker q.old) (Q.worker q.new) result }
{
    let Some((lefts, rights)) = pays(q, r, s) else {
        return Ok(None);
    };
    let Some(left) = pairs_within(alloc, q, r, lefts) else {
        return Ok(None);
    };
    let Some(right) = pairs_within(alloc, q, s, rights) else {
        return Ok(None);
    };
    let Some(joined) = join(alloc, r.cols, &left, &right) else {
        return Ok(None);
    };
    let shape = Shape {
        rows: r.rows,
        cols: s.cols,
    };
    from_pairs_or_none(alloc, q, shape, &joined)
}
