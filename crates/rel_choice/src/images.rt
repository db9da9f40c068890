//! The rows and the columns that have pairs.
ghost use Rattle.std.specs.Prelude.{◌≡◌, ◌+◌, IfOk};
ghost use Rattle.rel_model.specs.Choice.{dom as dom_of, ran as ran_of};
ghost use Rattle.rel_model.specs.Worker.{Stands, set_of, Keeps, MakesAtMost, Gives, HasCause, operator_room, product_room, derived_room};

use rel_model::quads_trait::Quads;
use rel_model::{Lack, Rel, Shape};

/// `{(i, 0) : (i, j) in r for some j}`: the domain of definition, as a vector (Schmidt and Ströhlein).
pub fn dom<Q: Quads>(q: &mut Q, r: Rel) -> Result<Rel, Lack>
    requires { Stands (Q.worker q.old) r }
    ensures value { IfOk result (Gives (Q.worker q.new) r.rows 1 (dom_of (set_of (Q.worker q.old) r))) }
    ensures keeps { Keeps (Q.worker q.old) (Q.worker q.new) }
    ensures room { MakesAtMost (derived_room r.rows r.cols 1) (Q.worker q.old) (Q.worker q.new) }
    ensures few { MakesAtMost (operator_room r.cols 1 + product_room r.rows r.cols 1) (Q.worker q.old)
        (Q.worker q.new) }
    ensures cause { HasCause Q.lean (Q.worker q.old) (Q.worker q.new) result }
{
    rows_met(q, r)
}

/// `{(j, 0) : (i, j) in r for some i}`: the range, as a vector (Schmidt and Ströhlein).
pub fn ran<Q: Quads>(q: &mut Q, r: Rel) -> Result<Rel, Lack>
    requires { Stands (Q.worker q.old) r }
    ensures value { IfOk result (Gives (Q.worker q.new) r.cols 1 (ran_of (set_of (Q.worker q.old) r))) }
    ensures keeps { Keeps (Q.worker q.old) (Q.worker q.new) }
    ensures room { MakesAtMost (derived_room r.rows r.cols 1) (Q.worker q.old) (Q.worker q.new) }
    ensures few { MakesAtMost (operator_room r.rows r.cols + (operator_room r.rows 1 + product_room r.cols r.rows 1))
        (Q.worker q.old) (Q.worker q.new) }
    ensures cause { HasCause Q.lean (Q.worker q.old) (Q.worker q.new) result }
{
    let turned = q.transpose(r)?;
    rows_met(q, turned)
}

/// The rows that have pairs: the relation composed with the full vector of its columns.
fn rows_met<Q: Quads>(q: &mut Q, r: Rel) -> Result<Rel, Lack>
    requires { Stands (Q.worker q.old) r }
    ensures value { IfOk result (Gives (Q.worker q.new) r.rows 1 (dom_of (set_of (Q.worker q.old) r))) }
    ensures keeps { Keeps (Q.worker q.old) (Q.worker q.new) }
    ensures room { MakesAtMost (operator_room r.cols 1 + product_room r.rows r.cols 1) (Q.worker q.old)
        (Q.worker q.new) }
    ensures cause { HasCause Q.lean (Q.worker q.old) (Q.worker q.new) result }
{
    let all = q.full(Shape {
        rows: r.cols,
        cols: 1,
    })?;
    q.compose(r, all)
}
