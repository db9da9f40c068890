//! Hasse diagrams.
ghost use Rattle.std.specs.Prelude.{◌≡◌, IfOk};
ghost use Rattle.rel_model.specs.Orders.{hasse as hasse_of};
ghost use Rattle.rel_model.specs.Worker.{Stands, set_of, Gives, Keeps, MakesAtMost, HasCause, wide_room};
ghost use Rattle.rel_order.specs.Steps.{proper_pairs, proper_room};

use crate::numbers::less;
use rel_model::core_trait::Core;
use rel_model::quads_trait::Quads;
use rel_model::{Lack, Rel};

/// `{(x, y) : (x, y) in r, x other than y}`: the pairs of different elements.
fn proper<Q: Quads>(q: &mut Q, r: Rel) -> Result<Rel, Lack>
    requires stands { Stands (Q.worker q.old) r }
    requires square { r.rows ≡ r.cols }
    ensures value { IfOk result (Gives (Q.worker q.new) r.rows r.cols (proper_pairs (set_of (Q.worker q.old) r))) }
    ensures keeps { Keeps (Q.worker q.old) (Q.worker q.new) }
    ensures room { MakesAtMost (proper_room r.rows r.cols) (Q.worker q.old) (Q.worker q.new) }
    ensures cause { HasCause Q.lean (Q.worker q.old) (Q.worker q.new) result }
{
    let lesser = less(q, r.rows)?;
    let greater = q.transpose(lesser)?;
    let other = q.union(lesser, greater)?;
    let rest = q.inter(r, other)?;
    Ok(rest)
}

/// `P & -(P*P)`, where P has the pairs of r of different elements: those (x, y) in P for which no z has (x, z) and (z,
/// y) in P. It is the Hasse diagram of an order (Schmidt and Ströhlein, *Relations and Graphs*). r must be square.
pub fn hasse<Q: Quads>(q: &mut Q, r: Rel) -> Result<Rel, Lack>
    requires stands { Stands (Q.worker q.old) r }
    requires square { r.rows ≡ r.cols }
    ensures value { IfOk result (Gives (Q.worker q.new) r.rows r.cols (hasse_of (set_of (Q.worker q.old) r))) }
    ensures keeps { Keeps (Q.worker q.old) (Q.worker q.new) }
    ensures room { MakesAtMost (wide_room r.rows r.cols r.cols) (Q.worker q.old) (Q.worker q.new) }
    ensures cause { HasCause Q.lean (Q.worker q.old) (Q.worker q.new) result }
{
    let steps = proper(q, r)?;
    let twice = q.compose(steps, steps)?;
    let rest = q.diff(steps, twice)?;
    Ok(rest)
}
