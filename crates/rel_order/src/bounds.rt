//! Upper and lower bounds of the columns of a relation.
ghost use Rattle.std.specs.Prelude.{◌≡◌, IfOk};
ghost use Rattle.rel_model.specs.Orders.{upper_bounds, lower_bounds};
ghost use Rattle.rel_model.specs.Worker.{Stands, set_of, Gives, Keeps, MakesAtMost, HasCause, bounds_room};

use rel_model::core_trait::Core;
use rel_model::quads_trait::Quads;
use rel_model::{Lack, Rel};
use rel_residual::left;

/// `ubd(R,S) = R^/S^ = {(x, y) : (z, y) in s implies (z, x) in r, for all z}`: the upper bounds of the columns of s,
/// for an n × n and an n × m relation (Schmidt and Ströhlein, *Relations and Graphs*).
pub fn ubd<Q: Quads>(q: &mut Q, r: Rel, s: Rel) -> Result<Rel, Lack>
    requires left { Stands (Q.worker q.old) r }
    requires right { Stands (Q.worker q.old) s }
    requires square { r.rows ≡ r.cols }
    requires rows { r.rows ≡ s.rows }
    ensures value { IfOk result (Gives (Q.worker q.new) r.rows s.cols
        (upper_bounds (set_of (Q.worker q.old) r) (set_of (Q.worker q.old) s))) }
    ensures keeps { Keeps (Q.worker q.old) (Q.worker q.new) }
    ensures room { MakesAtMost (bounds_room r.rows r.cols s.cols) (Q.worker q.old) (Q.worker q.new) }
    ensures cause { HasCause Q.lean (Q.worker q.old) (Q.worker q.new) result }
{
    let r_turned = q.transpose(r)?;
    let s_turned = q.transpose(s)?;
    let bounds = left(q, r_turned, s_turned)?;
    Ok(bounds)
}

/// `lbd(R,S) = R/S^ = {(x, y) : (z, y) in s implies (x, z) in r, for all z}`: the lower bounds of the columns of s, for
/// an n × n and an n × m relation (Schmidt and Ströhlein, *Relations and Graphs*).
pub fn lbd<Q: Quads>(q: &mut Q, r: Rel, s: Rel) -> Result<Rel, Lack>
    requires left { Stands (Q.worker q.old) r }
    requires right { Stands (Q.worker q.old) s }
    requires square { r.rows ≡ r.cols }
    requires rows { r.rows ≡ s.rows }
    ensures value { IfOk result (Gives (Q.worker q.new) r.rows s.cols
        (lower_bounds (set_of (Q.worker q.old) r) (set_of (Q.worker q.old) s))) }
    ensures keeps { Keeps (Q.worker q.old) (Q.worker q.new) }
    ensures room { MakesAtMost (bounds_room r.rows r.cols s.cols) (Q.worker q.old) (Q.worker q.new) }
    ensures cause { HasCause Q.lean (Q.worker q.old) (Q.worker q.new) result }
{
    let s_turned = q.transpose(s)?;
    let bounds = left(q, r, s_turned)?;
    Ok(bounds)
}
