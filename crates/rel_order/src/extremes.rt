//! Least and greatest elements, suprema and infima of the columns of a relation.
ghost use Rattle.std.specs.Prelude.{◌≡◌, IfOk};
ghost use Rattle.rel_model.specs.Orders.{least as least_of, greatest as greatest_of, suprema, infima};
ghost use Rattle.rel_model.specs.Worker.{Stands, set_of, Gives, Keeps, MakesAtMost, HasCause, wide_room, extremes_room};

use crate::bounds::{lbd, ubd};
use rel_model::core_trait::Core;
use rel_model::quads_trait::Quads;
use rel_model::{Lack, Rel};

/// `least(R,S) = S & lbd(R,S)`: the elements of each column of s that are lower bounds of it, for an n × n and an n × m
/// relation (Schmidt and Ströhlein, *Relations and Graphs*). In an order, each column has at most one.
pub fn least<Q: Quads>(q: &mut Q, r: Rel, s: Rel) -> Result<Rel, Lack>
    requires left { Stands (Q.worker q.old) r }
    requires right { Stands (Q.worker q.old) s }
    requires square { r.rows ≡ r.cols }
    requires rows { r.rows ≡ s.rows }
    ensures value { IfOk result (Gives (Q.worker q.new) r.rows s.cols
        (least_of (set_of (Q.worker q.old) r) (set_of (Q.worker q.old) s))) }
    ensures keeps { Keeps (Q.worker q.old) (Q.worker q.new) }
    ensures room { MakesAtMost (wide_room r.rows r.cols s.cols) (Q.worker q.old) (Q.worker q.new) }
    ensures cause { HasCause Q.lean (Q.worker q.old) (Q.worker q.new) result }
{
    let below = lbd(q, r, s)?;
    let found = q.inter(s, below)?;
    Ok(found)
}

/// `greatest(R,S) = S & ubd(R,S)`: the elements of each column of s that are upper bounds of it, for an n × n and an n
/// × m relation (Schmidt and Ströhlein, *Relations and Graphs*). In an order, each column has at most one.
pub fn greatest<Q: Quads>(q: &mut Q, r: Rel, s: Rel) -> Result<Rel, Lack>
    requires left { Stands (Q.worker q.old) r }
    requires right { Stands (Q.worker q.old) s }
    requires square { r.rows ≡ r.cols }
    requires rows { r.rows ≡ s.rows }
    ensures value { IfOk result (Gives (Q.worker q.new) r.rows s.cols
        (greatest_of (set_of (Q.worker q.old) r) (set_of (Q.worker q.old) s))) }
    ensures keeps { Keeps (Q.worker q.old) (Q.worker q.new) }
    ensures room { MakesAtMost (wide_room r.rows r.cols s.cols) (Q.worker q.old) (Q.worker q.new) }
    ensures cause { HasCause Q.lean (Q.worker q.old) (Q.worker q.new) result }
{
    let above = ubd(q, r, s)?;
    let found = q.inter(s, above)?;
    Ok(found)
}

/// `sup(R,S) = least(R, ubd(R,S))`: the least upper bounds of the columns of s, for an n × n and an n × m relation
/// (Schmidt and Ströhlein, *Relations and Graphs*). In an order, each column has at most one.
pub fn sup<Q: Quads>(q: &mut Q, r: Rel, s: Rel) -> Result<Rel, Lack>
    requires left { Stands (Q.worker q.old) r }
    requires right { Stands (Q.worker q.old) s }
    requires square { r.rows ≡ r.cols }
    requires rows { r.rows ≡ s.rows }
    ensures value { IfOk result (Gives (Q.worker q.new) r.rows s.cols
        (suprema (set_of (Q.worker q.old) r) (set_of (Q.worker q.old) s))) }
    ensures keeps { Keeps (Q.worker q.old) (Q.worker q.new) }
    ensures room { MakesAtMost (extremes_room r.rows r.cols s.cols) (Q.worker q.old) (Q.worker q.new) }
    ensures cause { HasCause Q.lean (Q.worker q.old) (Q.worker q.new) result }
{
    let uppers = ubd(q, r, s)?;
    let found = least(q, r, uppers)?;
    Ok(found)
}

/// `inf(R,S) = greatest(R, lbd(R,S))`: the greatest lower bounds of the columns of s, for an n × n and an n × m
/// relation (Schmidt and Ströhlein, *Relations and Graphs*). In an order, each column has at most one.
pub fn inf<Q: Quads>(q: &mut Q, r: Rel, s: Rel) -> Result<Rel, Lack>
    requires left { Stands (Q.worker q.old) r }
    requires right { Stands (Q.worker q.old) s }
    requires square { r.rows ≡ r.cols }
    requires rows { r.rows ≡ s.rows }
    ensures value { IfOk result (Gives (Q.worker q.new) r.rows s.cols
        (infima (set_of (Q.worker q.old) r) (set_of (Q.worker q.old) s))) }
    ensures keeps { Keeps (Q.worker q.old) (Q.worker q.new) }
    ensures room { MakesAtMost (extremes_room r.rows r.cols s.cols) (Q.worker q.old) (Q.worker q.new) }
    ensures cause { HasCause Q.lean (Q.worker q.old) (Q.worker q.new) result }
{
    let lowers = lbd(q, r, s)?;
    let found = greatest(q, r, lowers)?;
    Ok(found)
}
