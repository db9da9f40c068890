//! The choice of an element or a pair, and the first element.
ghost use Rattle.std.specs.Prelude.{◌≡◌, IfOk};
ghost use Rattle.rel_model.specs.Choice.{point as point_of, atom as atom_of, init as init_of};
ghost use Rattle.rel_model.specs.Worker.{Stands, set_of, Keeps, MakesAtMost, Gives, HasCause, operator_room, derived_room};

use crate::walking::next_pair;
use rel_model::quads_trait::Quads;
use rel_model::{Lack, Rel, Shape};

/// `{(i, 0) : i is the least element of v}`: a point of a vector; the empty vector if v is empty.
pub fn point<Q: Quads>(q: &mut Q, v: Rel) -> Result<Rel, Lack>
    requires stands { Stands (Q.worker q.old) v }
    requires column { v.cols ≡ 1 }
    ensures value { IfOk result (Gives (Q.worker q.new) v.rows 1 (point_of (set_of (Q.worker q.old) v))) }
    ensures keeps { Keeps (Q.worker q.old) (Q.worker q.new) }
    ensures room { MakesAtMost (derived_room v.rows 1 1) (Q.worker q.old) (Q.worker q.new) }
    ensures few { MakesAtMost (operator_room v.rows 1) (Q.worker q.old) (Q.worker q.new) }
    ensures cause { HasCause Q.lean (Q.worker q.old) (Q.worker q.new) result }
{
    atom(q, v)
}

/// `{(i, j) : (i, j) is the least pair of r by row and then by column}`: an atom of a relation; the empty relation if r
/// is empty.
pub fn atom<Q: Quads>(q: &mut Q, r: Rel) -> Result<Rel, Lack>
    requires { Stands (Q.worker q.old) r }
    ensures value { IfOk result (Gives (Q.worker q.new) r.rows r.cols (atom_of (set_of (Q.worker q.old) r))) }
    ensures keeps { Keeps (Q.worker q.old) (Q.worker q.new) }
    ensures room { MakesAtMost (derived_room r.rows r.cols 1) (Q.worker q.old) (Q.worker q.new) }
    ensures few { MakesAtMost (operator_room r.rows r.cols) (Q.worker q.old) (Q.worker q.new) }
    ensures cause { HasCause Q.lean (Q.worker q.old) (Q.worker q.new) result }
{
    let shape = Shape {
        rows: r.rows,
        cols: r.cols,
    };
    let Some((row, column)) = next_pair(q, r, None) else {
        return q.empty(shape);
    };
    q.single(shape, row, column)
}

/// `{(0, 0)}` with the rows of v: the first element; the empty vector if v has no rows.
pub fn init<Q: Quads>(q: &mut Q, v: Rel) -> Result<Rel, Lack>
    requires stands { Stands (Q.worker q.old) v }
    requires column { v.cols ≡ 1 }
    ensures value { IfOk result (Gives (Q.worker q.new) v.rows 1 (init_of (set_of (Q.worker q.old) v))) }
    ensures keeps { Keeps (Q.worker q.old) (Q.worker q.new) }
    ensures room { MakesAtMost (derived_room v.rows 1 1) (Q.worker q.old) (Q.worker q.new) }
    ensures few { MakesAtMost (operator_room v.rows 1) (Q.worker q.old) (Q.worker q.new) }
    ensures cause { HasCause Q.lean (Q.worker q.old) (Q.worker q.new) result }
{
    let shape = Shape {
        rows: v.rows,
        cols: 1,
    };
    if v.rows == 0 {
        return q.empty(shape);
    }
    q.single(shape, 0, 0)
}
